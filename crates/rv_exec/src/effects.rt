//! What instructions do to a hart.
ghost use Rattle.std.specs.Prelude.{◌≡◌, ◌+◌, ◌<◌, ◌^◌, ◌%◌, OnErr, true};
ghost use Rattle.csr_file.specs.Traps.{mret_csrs};
ghost use Rattle.rv_exec.specs.Ends.{outcome_of};
ghost use Rattle.rv_exec.specs.Meaning.{Done, onward, value_done, jump, branch, csr_done, csr_written};
ghost use Rattle.rv_exec.specs.Choices.{changed_by};

use crate::csr_change::CsrChange;
use crate::exception::{Exception, ILLEGAL_INSTRUCTION, INSTRUCTION_MISALIGNED};
use crate::hart::Hart;
use csr_file::CsrView;

impl Hart {
    /// Puts a value into a register and goes on to the next instruction.
    pub(crate) fn put_value(&mut self, rd: u32, value: u32) -> Result<(), Exception>
        requires { rd < 32 }
        ensures outcome { outcome_of result self.new ≡ value_done self.old rd value }
        ensures kept { OnErr result (self.new ≡ self.old) }
    {
        if rd != 0 {
            self.regs[rd as usize] = value;
        }
        self.pc = self.pc.wrapping_add(4);
        Ok(())
    }

    /// Goes on to the next instruction.
    pub(crate) fn go_on(&mut self) -> Result<(), Exception>
        ensures outcome { outcome_of result self.new ≡ Done (onward self.old) }
        ensures kept { OnErr result (self.new ≡ self.old) }
    {
        self.pc = self.pc.wrapping_add(4);
        Ok(())
    }

    /// Jumps to a target and puts the next pc into a register, or traps where the target is misaligned.
    pub(crate) fn jump(&mut self, rd: u32, target: u32) -> Result<(), Exception>
        requires { rd < 32 }
        ensures outcome { outcome_of result self.new ≡ jump self.old rd target }
        ensures kept { OnErr result (self.new ≡ self.old) }
    {
        if target.is_multiple_of(4) {
            if rd != 0 {
                self.regs[rd as usize] = self.pc.wrapping_add(4);
            }
            self.pc = target;
            Ok(())
        } else {
            Err(Exception {
                cause: INSTRUCTION_MISALIGNED,
                value: target,
            })
        }
    }

    /// Goes to the target of a branch that is taken, or traps where it is misaligned; else goes on.
    pub(crate) fn branch(&mut self, taken: bool, imm: i32) -> Result<(), Exception>
        ensures outcome { outcome_of result self.new ≡ branch self.old taken imm }
        ensures kept { OnErr result (self.new ≡ self.old) }
    {
        if taken {
            let target = self.pc.wrapping_add(imm.cast_unsigned());
            if target.is_multiple_of(4) {
                self.pc = target;
                Ok(())
            } else {
                Err(Exception {
                    cause: INSTRUCTION_MISALIGNED,
                    value: target,
                })
            }
        } else {
            self.pc = self.pc.wrapping_add(4);
            Ok(())
        }
    }

    /// Does MRET.
    pub(crate) fn leave_trap(&mut self) -> Result<(), Exception>
        ensures outcome { outcome_of result self.new ≡ Done (record self.old { csrs = mret_csrs self.old.csrs; pc = self.old.csrs.mepc }) }
        ensures kept { OnErr result (self.new ≡ self.old) }
    {
        self.pc = self.csrs.mret();
        Ok(())
    }

    /// Does WFI.
    pub(crate) fn wait(&mut self) -> Result<(), Exception>
        ensures outcome { outcome_of result self.new ≡ Done (record self.old { waiting = true; pc = (self.old.pc + 4) % 2 ^ 32 }) }
        ensures kept { OnErr result (self.new ≡ self.old) }
    {
        self.waiting = true;
        self.pc = self.pc.wrapping_add(4);
        Ok(())
    }

    /// Writes a CSR and puts its old value into a register, or traps where it cannot be written.
    fn csr_put(
        &mut self,
        word: u32,
        rd: u32,
        csr: u32,
        old: u32,
        value: u32,
    ) -> Result<(), Exception>
        requires { rd < 32 }
        ensures outcome { outcome_of result self.new ≡ csr_written self.old word rd csr old value }
        ensures kept { OnErr result (self.new ≡ self.old) }
    {
        if self.csrs.write(csr, value) {
            if rd != 0 {
                self.regs[rd as usize] = old;
            }
            self.pc = self.pc.wrapping_add(4);
            Ok(())
        } else {
            Err(Exception {
                cause: ILLEGAL_INSTRUCTION,
                value: word,
            })
        }
    }

    /// Changes a CSR and puts its old value into a register, or traps where the CSR is not there or
    /// cannot be written. An instruction that writes nothing only reads.
    pub(crate) fn change_csr(
        &mut self,
        view: &CsrView,
        word: u32,
        rd: u32,
        csr: u32,
        change: CsrChange,
        operand: u32,
        writes: bool,
    ) -> Result<(), Exception>
        requires { rd < 32 }
        ensures outcome { outcome_of result self.new ≡ csr_done self.old view.now word rd csr (changed_by change) operand writes }
        ensures kept { OnErr result (self.new ≡ self.old) }
    {
        match self.csrs.read(csr, view) {
            None => Err(Exception {
                cause: ILLEGAL_INSTRUCTION,
                value: word,
            }),
            Some(old) => {
                if writes {
                    self.csr_put(word, rd, csr, old, change.value(old, operand))
                } else {
                    self.put_value(rd, old)
                }
            }
        }
    }
}
