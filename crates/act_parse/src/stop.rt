ghost use Rattle.std.specs.Prelude.{◌≡◌, length};
ghost use Rattle.act_parse.specs.declared.stop.Stop.TheVariants.{Stuck};

use nv_base::OutOfMemory;

/// Why a reading does not go on.
#[derive(Clone, Copy)]
pub(crate) enum Stop {
    /// It is stuck at a byte, so many bytes before the end of the text.
    Stuck(usize),
    /// Memory ran out.
    Memory,
}

impl From<OutOfMemory> for Stop {
    ghost use Rattle.act_parse.specs.declared.stop.Stop.TheVariants.{Memory};

    ghost from_gives = { λ _ stop. stop ≡ Memory };

    fn from(_error: OutOfMemory) -> Stop {
        Stop::Memory
    }
}

/// What was read, and the text after it.
pub(crate) type Read<'a, T> = Result<(T, &'a [u8]), Stop>;

/// No reading goes on with the first byte of the text.
pub(crate) fn stuck(text: &[u8]) -> Stop
    ensures { result ≡ Stuck (length text.now) }
{
    Stop::Stuck(text.len())
}
