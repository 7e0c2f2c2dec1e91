use nb_records::Refusal;
use nv_base::OutOfMemory;

/// Why nothing was read of a line.
#[derive(Drop)]
pub enum LineFault {
    /// The line is refused.
    Refused(Refusal),
    /// Memory ran out.
    Memory,
}

impl From<OutOfMemory> for LineFault {
    ghost use Rattle.std.specs.Prelude.{◌≡◌};
    ghost use Rattle.nb_words.specs.declared.fault.LineFault.TheVariants.{Memory};

    ghost from_gives = { λ error fault. fault ≡ Memory };

    fn from(_error: OutOfMemory) -> LineFault {
        LineFault::Memory
    }
}
