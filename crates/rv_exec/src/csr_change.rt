//! What a CSR instruction writes.
ghost use Rattle.std.specs.Prelude.{◌≡◌};
ghost use Rattle.rv_exec.specs.Choices.{changed_by};

/// What an instruction that changes a CSR makes of its old value.
#[derive(Clone, Copy, Debug)]
pub(crate) enum CsrChange {
    /// The operand takes its place.
    Write,
    /// The bits of the operand are set in it.
    Set,
    /// The bits of the operand are cleared in it.
    Clear,
}

impl CsrChange {
    /// The new value.
    pub(crate) fn value(self, old: u32, operand: u32) -> u32
        ensures { result ≡ changed_by self old operand }
    {
        match self {
            CsrChange::Write => operand,
            CsrChange::Set => old | operand,
            CsrChange::Clear => old & !operand,
        }
    }
}
