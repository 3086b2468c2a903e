ghost use Rattle.std.specs.Prelude.{◌≡◌};
ghost use Rattle.kernel.specs.Meaning.{told};
ghost use Rattle.short.specs.Short.{fit_short};

use kernel::Told;
use tables::Scale;

// The largest size of a reading that a short kernel takes.
const LIMIT: u64 = 1 << 40;

// What a fit short kernel tells.
pub(crate) fn fit(length: usize, count: usize) -> Told
    ensures { result ≡ told (fit_short length count) }
{
    let scale = Scale::Standard.value();
    Told {
        fault: None,
        length,
        gain: scale,
        limit: LIMIT,
        scale,
        count,
    }
}
