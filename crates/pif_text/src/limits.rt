ghost use Rattle.std.specs.Prelude.{◌≡◌};
ghost use Rattle.pif_text_model.specs.Limits.{default_limits};

use pif_types::Limits;

/// The limits of a script that begins with no `limits`: 1,024 threads, 1,024 mutexes, 256 condition variables, and
/// 4,294,967,295 signals and broadcasts together on one variable.
pub fn default_limits() -> Limits
    ensures { result ≡ default_limits }
{
    Limits::new(1024, 1024, 256, 4_294_967_295).unwrap()
}
