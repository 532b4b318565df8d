//! Laws on words: which job they ask for, and why they are refused.
ghost use Rattle.std.specs.Prelude.{◌≡◌, ◌≤◌, ℕ, List, [], ◌∷◌, None, Some, codes, true, false};
ghost use Rattle.clap.specs.declared.error.kind.ErrorKind.TheVariants.{ArgumentConflict, DisplayHelp, DisplayVersion, InvalidSubcommand, InvalidValue, MissingRequiredArgument, MissingSubcommand, TooManyValues, ValueValidation};
ghost use Rattle.pif_rules_model.specs.Sets.{no_rules};
ghost use Rattle.pif_cli_words.specs.Random.{plain_shape};
ghost use Rattle.pif_cli_words.specs.Words.{aside_of, refusals_of, job_of, files_of, rewrites};

use crate::jobs::Job;
use crate::random::Recipe;
use pif_script_model::{Detail, Picture};

/// Which words ask for which job: `run`, `show`, `draw`, `shell`, `replay`, `trace` and `migrate` alone, `show` with
/// each of its flags, `draw` with all of its options, `run` with a file, `check` alone, with each of its flags and with
/// two files, `judge` alone, with its options and two files, with `--least`, with `--html` and one, with `--split` and
/// a folder, with `--joined` and an index, and with `--follow`, `explore` alone, with its options, with `--html`, and
/// with `--core` without its number, `random` with a seed and from 1 to 262,144 lines, and `drive` with a number from 1
/// to 64 do; no word, `--help`, `--version`, `judge --html` with another form or two files, `judge --least` with
/// `--json`, `judge --json` with `--witness`, `judge --split` with `--joined`, a rule or two files, `judge --allow`
/// with no rule, `explore --html` with `--json` or `--core`, `explore --json` and `explore --claims` with `--calls`,
/// `check` with two of its flags, and `draw` with a last line before the first don't.
#[tactic(auto, unfolding(clap::proofs::OnLiterals::clap_on_literals, pif_rules::specs::Words::rule_in))]
pub fn words_of_the_program()
    ensures run { (name : List ℕ) → (refusals_of (name ∷ codes "run" ∷ []) ≡ []) × (job_of (name ∷ codes "run" ∷ []) ≡ Job.Run) }
    ensures replay { (name : List ℕ) → (refusals_of (name ∷ codes "replay" ∷ []) ≡ []) × (job_of (name ∷ codes "replay" ∷ []) ≡ Job.Replay) }
    ensures trace { (name : List ℕ) → (refusals_of (name ∷ codes "trace" ∷ []) ≡ []) × (job_of (name ∷ codes "trace" ∷ []) ≡ Job.Trace) }
    ensures migrate { (name : List ℕ) → (refusals_of (name ∷ codes "migrate" ∷ []) ≡ []) × (job_of (name ∷ codes "migrate" ∷ []) ≡ Job.Migrate) }
    ensures show { (name : List ℕ) → (refusals_of (name ∷ codes "show" ∷ []) ≡ []) × (job_of (name ∷ codes "show" ∷ []) ≡ Job.Show Detail.Changes) }
    ensures all { (name : List ℕ) → (refusals_of (name ∷ codes "show" ∷ codes "--all" ∷ []) ≡ [])
        × (job_of (name ∷ codes "show" ∷ codes "--all" ∷ []) ≡ Job.Show Detail.All) }
    ensures draw { (name : List ℕ) → (refusals_of (name ∷ codes "draw" ∷ []) ≡ [])
        × (job_of (name ∷ codes "draw" ∷ []) ≡ Job.Draw (record { html = false; from = 0; to = 0 })) }
    ensures page { (name : List ℕ) → (refusals_of (name ∷ codes "draw" ∷ codes "--html" ∷ codes "--from=3" ∷ codes "--to=9" ∷ []) ≡ [])
        × (job_of (name ∷ codes "draw" ∷ codes "--html" ∷ codes "--from=3" ∷ codes "--to=9" ∷ [])
        ≡ Job.Draw (record { html = true; from = 3; to = 9 })) }
    ensures last_before_first { (name : List ℕ) → refusals_of (name ∷ codes "draw" ∷ codes "--from=9" ∷ codes "--to=3" ∷ []) ≡ InvalidValue ∷ [] }
    ensures json { (name : List ℕ) → (refusals_of (name ∷ codes "show" ∷ codes "--json" ∷ []) ≡ [])
        × (job_of (name ∷ codes "show" ∷ codes "--json" ∷ []) ≡ Job.Picture Picture.States) }
    ensures dot { (name : List ℕ) → (refusals_of (name ∷ codes "show" ∷ codes "--dot" ∷ []) ≡ [])
        × (job_of (name ∷ codes "show" ∷ codes "--dot" ∷ []) ≡ Job.Picture Picture.Graph) }
    ensures shell { (name : List ℕ) → (refusals_of (name ∷ codes "shell" ∷ []) ≡ []) × (job_of (name ∷ codes "shell" ∷ []) ≡ Job.Shell) }
    ensures check { (name : List ℕ) → (refusals_of (name ∷ codes "check" ∷ []) ≡ [])
        × (job_of (name ∷ codes "check" ∷ []) ≡ Job.Check) }
    ensures fill { (name : List ℕ) → (refusals_of (name ∷ codes "check" ∷ codes "--print" ∷ []) ≡ [])
        × (job_of (name ∷ codes "check" ∷ codes "--print" ∷ []) ≡ Job.Fill) }
    ensures fill_several { (name : List ℕ) → (refusals_of (name ∷ codes "check" ∷ codes "--print" ∷ codes "a" ∷ codes "b" ∷ []) ≡ [])
        × (job_of (name ∷ codes "check" ∷ codes "--print" ∷ codes "a" ∷ codes "b" ∷ []) ≡ Job.FillSeveral) }
    ensures strict { (name : List ℕ) → (refusals_of (name ∷ codes "check" ∷ codes "--strict" ∷ []) ≡ [])
        × (job_of (name ∷ codes "check" ∷ codes "--strict" ∷ []) ≡ Job.Strict) }
    ensures rewrite { (name : List ℕ) → (refusals_of (name ∷ codes "check" ∷ codes "--write" ∷ codes "a" ∷ []) ≡ [])
        × (job_of (name ∷ codes "check" ∷ codes "--write" ∷ codes "a" ∷ []) ≡ Job.Fill)
        × (rewrites (name ∷ codes "check" ∷ codes "--write" ∷ codes "a" ∷ []) ≡ true) }
    ensures strict_or_print { (name : List ℕ) → refusals_of (name ∷ codes "check" ∷ codes "--strict" ∷ codes "--print" ∷ []) ≡ ArgumentConflict ∷ [] }
    ensures print_or_write { (name : List ℕ) → refusals_of (name ∷ codes "check" ∷ codes "--print" ∷ codes "--write" ∷ []) ≡ ArgumentConflict ∷ [] }
    ensures judge { (name : List ℕ) → (refusals_of (name ∷ codes "judge" ∷ []) ≡ [])
        × (job_of (name ∷ codes "judge" ∷ []) ≡ Job.Judge (record { witness = false; json = false; html = false; least = false; plain = false; states = 200000; seconds = None; jobs = None; several = false; allowed = no_rules })) }
    ensures judges { (name : List ℕ) → (refusals_of (name ∷ codes "judge" ∷ codes "--witness" ∷ codes "--states=7" ∷ codes "a" ∷ codes "b" ∷ []) ≡ [])
        × (job_of (name ∷ codes "judge" ∷ codes "--witness" ∷ codes "--states=7" ∷ codes "a" ∷ codes "b" ∷ [])
        ≡ Job.Judge (record { witness = true; json = false; html = false; least = false; plain = false; states = 7; seconds = None; jobs = None; several = true; allowed = no_rules })) }
    ensures objects { (name : List ℕ) → (refusals_of (name ∷ codes "judge" ∷ codes "--json" ∷ codes "a" ∷ codes "b" ∷ []) ≡ [])
        × (job_of (name ∷ codes "judge" ∷ codes "--json" ∷ codes "a" ∷ codes "b" ∷ [])
        ≡ Job.Judge (record { witness = false; json = true; html = false; least = false; plain = false; states = 200000; seconds = None; jobs = None; several = true; allowed = no_rules })) }
    ensures judge_page { (name : List ℕ) → (refusals_of (name ∷ codes "judge" ∷ codes "--html" ∷ codes "a" ∷ []) ≡ [])
        × (job_of (name ∷ codes "judge" ∷ codes "--html" ∷ codes "a" ∷ [])
        ≡ Job.Judge (record { witness = false; json = false; html = true; least = false; plain = false; states = 200000; seconds = None; jobs = None; several = false; allowed = no_rules })) }
    ensures judge_least { (name : List ℕ) → (refusals_of (name ∷ codes "judge" ∷ codes "--least" ∷ codes "a" ∷ codes "b" ∷ []) ≡ [])
        × (job_of (name ∷ codes "judge" ∷ codes "--least" ∷ codes "a" ∷ codes "b" ∷ [])
        ≡ Job.Judge (record { witness = false; json = false; html = false; least = true; plain = false; states = 200000; seconds = None; jobs = None; several = true; allowed = no_rules })) }
    ensures least_or_json { (name : List ℕ) → refusals_of (name ∷ codes "judge" ∷ codes "--least" ∷ codes "--json" ∷ []) ≡ ArgumentConflict ∷ [] }
    ensures json_or_witness { (name : List ℕ) → refusals_of (name ∷ codes "judge" ∷ codes "--witness" ∷ codes "--json" ∷ []) ≡ ArgumentConflict ∷ [] }
    ensures no_rule { (name : List ℕ) → refusals_of (name ∷ codes "judge" ∷ codes "--allow" ∷ codes "theft" ∷ []) ≡ InvalidValue ∷ [] }
    ensures page_or_json { (name : List ℕ) → refusals_of (name ∷ codes "judge" ∷ codes "--html" ∷ codes "--json" ∷ []) ≡ ArgumentConflict ∷ [] }
    ensures page_or_witness { (name : List ℕ) → refusals_of (name ∷ codes "judge" ∷ codes "--html" ∷ codes "--witness" ∷ []) ≡ ArgumentConflict ∷ [] }
    ensures page_of_one { (name : List ℕ) → refusals_of (name ∷ codes "judge" ∷ codes "--html" ∷ codes "a" ∷ codes "b" ∷ []) ≡ TooManyValues ∷ [] }
    ensures judge_timed { (name : List ℕ) → (refusals_of (name ∷ codes "judge" ∷ codes "--seconds=5" ∷ codes "--jobs=3" ∷ codes "a" ∷ codes "b" ∷ []) ≡ [])
        × (job_of (name ∷ codes "judge" ∷ codes "--seconds=5" ∷ codes "--jobs=3" ∷ codes "a" ∷ codes "b" ∷ [])
        ≡ Job.Judge (record { witness = false; json = false; html = false; least = false; plain = false; states = 200000; seconds = Some 5; jobs = Some 3; several = true; allowed = no_rules })) }
    ensures judge_untimed { (name : List ℕ) → (refusals_of (name ∷ codes "judge" ∷ codes "--seconds=0" ∷ []) ≡ [])
        × (job_of (name ∷ codes "judge" ∷ codes "--seconds=0" ∷ []) ≡ job_of (name ∷ codes "judge" ∷ [])) }
    ensures too_many_seconds { (name : List ℕ) → refusals_of (name ∷ codes "judge" ∷ codes "--seconds=86401" ∷ []) ≡ ValueValidation ∷ [] }
    ensures no_jobs { (name : List ℕ) → refusals_of (name ∷ codes "judge" ∷ codes "--jobs=0" ∷ []) ≡ ValueValidation ∷ [] }
    ensures too_many_jobs { (name : List ℕ) → refusals_of (name ∷ codes "judge" ∷ codes "--jobs=65" ∷ []) ≡ ValueValidation ∷ [] }
    ensures no_states { (name : List ℕ) → refusals_of (name ∷ codes "judge" ∷ codes "--states=0" ∷ []) ≡ ValueValidation ∷ [] }
    ensures too_many_states { (name : List ℕ) → refusals_of (name ∷ codes "judge" ∷ codes "--states=16777217" ∷ []) ≡ ValueValidation ∷ [] }
    ensures judge_split { (name : List ℕ) → (refusals_of (name ∷ codes "judge" ∷ codes "--split" ∷ codes "d" ∷ codes "--lines=9" ∷ codes "a" ∷ []) ≡ [])
        × (job_of (name ∷ codes "judge" ∷ codes "--split" ∷ codes "d" ∷ codes "--lines=9" ∷ codes "a" ∷ []) ≡ Job.Split 9)
        × (aside_of (name ∷ codes "judge" ∷ codes "--split" ∷ codes "d" ∷ codes "--lines=9" ∷ codes "a" ∷ []) ≡ codes "d")
        × (files_of (name ∷ codes "judge" ∷ codes "--split" ∷ codes "d" ∷ codes "--lines=9" ∷ codes "a" ∷ []) ≡ codes "a" ∷ []) }
    ensures judge_joined { (name : List ℕ) → (refusals_of (name ∷ codes "judge" ∷ codes "--joined=i" ∷ []) ≡ [])
        × (job_of (name ∷ codes "judge" ∷ codes "--joined=i" ∷ []) ≡ Job.Joined)
        × (aside_of (name ∷ codes "judge" ∷ codes "--joined=i" ∷ []) ≡ codes "i") }
    ensures judge_follow { (name : List ℕ) → (refusals_of (name ∷ codes "judge" ∷ codes "--follow" ∷ codes "--lines=9" ∷ codes "a" ∷ []) ≡ [])
        × (job_of (name ∷ codes "judge" ∷ codes "--follow" ∷ codes "--lines=9" ∷ codes "a" ∷ []) ≡ Job.Follow (record { least = 9; states = 200000 })) }
    ensures follow_or_split { (name : List ℕ) → refusals_of (name ∷ codes "judge" ∷ codes "--follow" ∷ codes "--split=d" ∷ []) ≡ ArgumentConflict ∷ [] }
    ensures split_or_joined { (name : List ℕ) → refusals_of (name ∷ codes "judge" ∷ codes "--split=d" ∷ codes "--joined=i" ∷ []) ≡ ArgumentConflict ∷ [] }
    ensures split_by_rules { (name : List ℕ) → refusals_of (name ∷ codes "judge" ∷ codes "--split=d" ∷ codes "--allow=steal" ∷ []) ≡ ArgumentConflict ∷ [] }
    ensures split_of_one { (name : List ℕ) → refusals_of (name ∷ codes "judge" ∷ codes "--split=d" ∷ codes "a" ∷ codes "b" ∷ []) ≡ TooManyValues ∷ [] }
    ensures explore { (name : List ℕ) → (refusals_of (name ∷ codes "explore" ∷ []) ≡ [])
        × (job_of (name ∷ codes "explore" ∷ []) ≡ Job.Explore (record { witness = false; calls = false; claims = false; json = false; html = false; strict = false; states = 1000000; seconds = None; core = None })) }
    ensures explores { (name : List ℕ) → (refusals_of (name ∷ codes "explore" ∷ codes "--witness" ∷ codes "--states=7" ∷ codes "--core=5" ∷ codes "a" ∷ []) ≡ [])
        × (job_of (name ∷ codes "explore" ∷ codes "--witness" ∷ codes "--states=7" ∷ codes "--core=5" ∷ codes "a" ∷ []) ≡ Job.Explore (record { witness = true; calls = false; claims = false; json = false; html = false; strict = false; states = 7; seconds = None; core = Some 5 })) }
    ensures explores_plainly { (name : List ℕ) → (refusals_of (name ∷ codes "explore" ∷ codes "--core" ∷ []) ≡ [])
        × (job_of (name ∷ codes "explore" ∷ codes "--core" ∷ []) ≡ Job.Explore (record { witness = false; calls = false; claims = false; json = false; html = false; strict = false; states = 1000000; seconds = None; core = Some 10000 })) }
    ensures explores_file { (name : List ℕ) → (refusals_of (name ∷ codes "explore" ∷ codes "--core" ∷ codes "a" ∷ []) ≡ [])
        × (job_of (name ∷ codes "explore" ∷ codes "--core" ∷ codes "a" ∷ []) ≡ Job.Explore (record { witness = false; calls = false; claims = false; json = false; html = false; strict = false; states = 1000000; seconds = None; core = Some 10000 }))
        × (files_of (name ∷ codes "explore" ∷ codes "--core" ∷ codes "a" ∷ []) ≡ codes "a" ∷ []) }
    ensures explores_so_often { (name : List ℕ) → (refusals_of (name ∷ codes "explore" ∷ codes "--core" ∷ codes "5" ∷ []) ≡ [])
        × (job_of (name ∷ codes "explore" ∷ codes "--core" ∷ codes "5" ∷ []) ≡ Job.Explore (record { witness = false; calls = false; claims = false; json = false; html = false; strict = false; states = 1000000; seconds = None; core = Some 5 })) }
    ensures explores_strictly { (name : List ℕ) → (refusals_of (name ∷ codes "explore" ∷ codes "--calls" ∷ codes "--strict" ∷ codes "--seconds=9" ∷ []) ≡ [])
        × (job_of (name ∷ codes "explore" ∷ codes "--calls" ∷ codes "--strict" ∷ codes "--seconds=9" ∷ []) ≡ Job.Explore (record { witness = false; calls = true; claims = false; json = false; html = false; strict = true; states = 1000000; seconds = Some 9; core = None })) }
    ensures explores_claims { (name : List ℕ) → (refusals_of (name ∷ codes "explore" ∷ codes "--claims" ∷ []) ≡ [])
        × (job_of (name ∷ codes "explore" ∷ codes "--claims" ∷ []) ≡ Job.Explore (record { witness = false; calls = false; claims = true; json = false; html = false; strict = false; states = 1000000; seconds = None; core = None })) }
    ensures claims_or_calls { (name : List ℕ) → refusals_of (name ∷ codes "explore" ∷ codes "--claims" ∷ codes "--calls" ∷ []) ≡ ArgumentConflict ∷ [] }
    ensures explores_in_a_page { (name : List ℕ) → (refusals_of (name ∷ codes "explore" ∷ codes "--html" ∷ []) ≡ [])
        × (job_of (name ∷ codes "explore" ∷ codes "--html" ∷ []) ≡ Job.Explore (record { witness = false; calls = false; claims = false; json = false; html = true; strict = false; states = 1000000; seconds = None; core = None })) }
    ensures found_page_or_objects { (name : List ℕ) → refusals_of (name ∷ codes "explore" ∷ codes "--html" ∷ codes "--json" ∷ []) ≡ ArgumentConflict ∷ [] }
    ensures found_objects_or_calls { (name : List ℕ) → refusals_of (name ∷ codes "explore" ∷ codes "--json" ∷ codes "--calls" ∷ []) ≡ ArgumentConflict ∷ [] }
    ensures found_page_or_cores { (name : List ℕ) → refusals_of (name ∷ codes "explore" ∷ codes "--html" ∷ codes "--core" ∷ []) ≡ ArgumentConflict ∷ [] }
    ensures explores_strange_file { (name : List ℕ) → files_of (name ∷ codes "explore" ∷ codes "--" ∷ codes "--core" ∷ []) ≡ codes "--core" ∷ [] }
    ensures file { (name : List ℕ) → (refusals_of (name ∷ codes "run" ∷ codes "a" ∷ []) ≡ [])
        × (files_of (name ∷ codes "run" ∷ codes "a" ∷ []) ≡ codes "a" ∷ []) }
    ensures files { (name : List ℕ) → (refusals_of (name ∷ codes "check" ∷ codes "a" ∷ codes "b" ∷ []) ≡ [])
        × (files_of (name ∷ codes "check" ∷ codes "a" ∷ codes "b" ∷ []) ≡ codes "a" ∷ codes "b" ∷ []) }
    ensures random { (name : List ℕ) → (refusals_of (name ∷ codes "random" ∷ codes "--seed=7" ∷ codes "--lines=1" ∷ []) ≡ [])
        × (job_of (name ∷ codes "random" ∷ codes "--seed=7" ∷ codes "--lines=1" ∷ [])
        ≡ Job.Random (record { seed = 7; lines = 1; shape = plain_shape })) }
    ensures longest { (name : List ℕ) → refusals_of (name ∷ codes "random" ∷ codes "--seed=7" ∷ codes "--lines=262144" ∷ []) ≡ [] }
    ensures no_lines { (name : List ℕ) → refusals_of (name ∷ codes "random" ∷ codes "--seed=7" ∷ codes "--lines=0" ∷ []) ≡ ValueValidation ∷ [] }
    ensures too_long { (name : List ℕ) → refusals_of (name ∷ codes "random" ∷ codes "--seed=7" ∷ codes "--lines=262145" ∷ []) ≡ ValueValidation ∷ [] }
    ensures no_seed { (name : List ℕ) → refusals_of (name ∷ codes "random" ∷ codes "--lines=1" ∷ []) ≡ MissingRequiredArgument ∷ [] }
    ensures least { (name : List ℕ) → (refusals_of (name ∷ codes "drive" ∷ codes "1" ∷ []) ≡ []) × (job_of (name ∷ codes "drive" ∷ codes "1" ∷ []) ≡ Job.Drive 1) }
    ensures most { (name : List ℕ) → (refusals_of (name ∷ codes "drive" ∷ codes "64" ∷ []) ≡ []) × (job_of (name ∷ codes "drive" ∷ codes "64" ∷ []) ≡ Job.Drive 64) }
    ensures too_few { (name : List ℕ) → refusals_of (name ∷ codes "drive" ∷ codes "0" ∷ []) ≡ ValueValidation ∷ [] }
    ensures too_many { (name : List ℕ) → refusals_of (name ∷ codes "drive" ∷ codes "65" ∷ []) ≡ ValueValidation ∷ [] }
    ensures no_number { (name : List ℕ) → refusals_of (name ∷ codes "drive" ∷ []) ≡ MissingRequiredArgument ∷ [] }
    ensures help { (name : List ℕ) → refusals_of (name ∷ codes "--help" ∷ []) ≡ DisplayHelp ∷ [] }
    ensures help_command { (name : List ℕ) → refusals_of (name ∷ codes "help" ∷ []) ≡ DisplayHelp ∷ InvalidSubcommand ∷ [] }
    ensures version { (name : List ℕ) → refusals_of (name ∷ codes "--version" ∷ []) ≡ DisplayVersion ∷ [] }
    ensures none { (name : List ℕ) → refusals_of (name ∷ []) ≡ MissingSubcommand ∷ [] }
{}

/// Whatever the words are, a random script that they ask for has 262,144 lines at most, so that a run of it has no
/// fault.
pub fn random_lines_have_a_bound()
    ensures { (words : List (List ℕ)) (recipe : Recipe) → (job_of words ≡ Job.Random recipe) → recipe.lines ≤ 262144 }
{}
