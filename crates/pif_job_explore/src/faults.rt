use pif_script_model::CliFault;

/// Why a program was not found to keep its claims.
#[derive(Clone, Copy)]
pub enum ExploreFault {
    /// A fault as of scripts. `Differs` names the line, from 1, of the first claim that is broken.
    Cli(CliFault),
    /// There are more states than may be kept or made at once, or the watch ended the search, and no claim was found to be
    /// broken.
    Undecided,
    /// A fault is told, and none was to be; no claim was found to be broken.
    Faulty,
    /// The programs were to be played on cores. This mutex is of PTHREAD_PRIO_NONE, and the core has none. Nothing was
    /// written.
    NotOnCore(u32),
}
