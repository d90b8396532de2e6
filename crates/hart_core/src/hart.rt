//! A hart, and what its instructions mean to it.
ghost use Rattle.std.specs.Prelude.{◌≡◌};
ghost use Rattle.dash_base.specs.declared.end.End.TheVariants.{Trapped};
ghost use Rattle.dash_base.specs.declared.need.Need.TheVariants.{Stop};
ghost use Rattle.hart_core.specs.Meaning.{jump_need};

use crate::access::{amo_need, load_need, loaded, store_need};
use crate::found::Found;
use crate::front::Front;
use dash_base::{End, HartId, Instr, Need, Topology, Trap};
use elf_load::Image;
use rv32_alu::{alu, branch};
use rv32_decode::{decode, hint};
use std::marker::Model;

/// One hart. Contracts see its state as a record.
#[derive(Drop)]
pub struct Hart {
    pc: u32,
    registers: [u32; 32],
    retired: u32,
    end: End,
}

impl Model for Hart {
    ghost use Rattle.hart_core.specs.HartState.{HartState};

    ghost Value = { HartState };

    ghost view = { λ h. record { pc = h.pc; registers = h.registers; retired = h.retired; end = h.end } };
}

impl Hart {
    ghost use Rattle.std.specs.Prelude.{◌≡◌, ◌<◌, ◌↔◌, IsTrue, false, length};
    ghost use Rattle.hart_core.specs.HartState.{reg, can_go_on};
    ghost use Rattle.hart_core.specs.Opening.{opening_hart};
    ghost use Rattle.dash_base.specs.Places.{hart_count};
    ghost use Rattle.hart_core.specs.Access.{IsProper};
    ghost use Rattle.hart_core.specs.Meaning.{IsNext, IsFront, IsFinished, Does};
    ghost use Rattle.dash_base.specs.declared.need.Need.{Need};
    ghost use Rattle.dash_base.specs.declared.need.Need.TheVariants.{Rest};

    /// The hart with a number at its start: at the entry, sp at the top of its stack, a0 its number,
    /// a1 how many harts there are.
    pub fn new(image: &Image, topology: &Topology, number: HartId) -> Hart
        requires { number.0 < hart_count topology.now }
        ensures { result ≡ opening_hart image.now topology.now number.0 }
    {
        let mut registers = [0; 32];
        registers[2] = topology.base + topology.memory - number.0 * topology.stack;
        registers[10] = number.0;
        registers[11] = topology.hart_count();
        Hart {
            pc: image.entry(),
            registers,
            retired: 0,
            end: End::Running,
        }
    }

    /// The address of its next instruction.
    pub fn pc(&self) -> u32
        ensures { result ≡ self.now.pc }
    {
        self.pc
    }

    /// The value of register `i`, from 0 to 31.
    pub fn reg(&self, i: u32) -> u32
        requires { i < 32 }
        ensures { result ≡ reg self.now i }
    {
        self.registers[i as usize]
    }

    /// The values of all 32 registers.
    pub fn registers(&self) -> &[u32]
        ensures value { result.now ≡ self.now.registers }
        ensures count { length result.now ≡ 32 }
    {
        &self.registers
    }

    /// How many instructions it has retired.
    pub fn retired(&self) -> u32
        ensures { result ≡ self.now.retired }
    {
        self.retired
    }

    pub fn end(&self) -> End
        ensures { result ≡ self.now.end }
    {
        self.end
    }

    /// What its next instruction needs: `Rest` exactly where it ended or retired its budget.
    pub fn next(&self, image: &Image, topology: &Topology) -> Need
        ensures next { IsNext image.now topology.now self.now result }
        ensures rest { (result ≡ Rest) ↔ (can_go_on topology.now self.now ≡ false) }
        ensures proper { IsProper topology.now result }
    {
        if self.can_go_on(topology) {
            self.need_at(image, topology, &self.find(image))
        } else {
            Need::Rest
        }
    }

    /// Its next instruction, found.
    pub fn front(&self, image: &Image, topology: &Topology) -> Front
        ensures { IsFront image.now topology.now self.now result }
    {
        if !self.can_go_on(topology) {
            return Front {
                found: Found::NoWord,
                need: Need::Rest,
            };
        }
        let found = self.find(image);
        let need = self.need_at(image, topology, &found);
        Front { found, need }
    }

    /// Does its next instruction, which was found, with an answer as `finish` has it, and finds the one
    /// after it.
    pub fn advance(&mut self, image: &Image, topology: &Topology, front: &mut Front, answer: u32)
        requires goes { IsTrue (can_go_on topology.now self.old) }
        requires front { IsFront image.now topology.now self.old front.old }
        ensures finished { IsFinished image.now topology.now self.old answer self.new }
        ensures next { (need : Need) → IsNext image.now topology.now self.old need
            → Does image.now topology.now self.old need answer self.new }
        ensures front { IsFront image.now topology.now self.new front.new }
    {
        let now = *front;
        self.answer(&now.found, &now.need, answer);
        *front = self.front(image, topology);
    }

    /// Does its next instruction. `answer` is the word that a load or an atomic operation found, also
    /// in the lock region; only the bytes that the access means count. For SC it is 0 where it wrote
    /// and 1 where it did not. For everything else it is not looked at.
    pub fn finish(&mut self, image: &Image, topology: &Topology, answer: u32)
        requires { IsTrue (can_go_on topology.now self.old) }
        ensures finished { IsFinished image.now topology.now self.old answer self.new }
        ensures next { (need : Need) → IsNext image.now topology.now self.old need
            → Does image.now topology.now self.old need answer self.new }
    {
        let found = self.find(image);
        let need = self.need_at(image, topology, &found);
        self.answer(&found, &need, answer);
    }
}

impl Hart {
    ghost use Rattle.std.specs.Prelude.{◌≡◌};
    ghost use Rattle.hart_core.specs.HartState.{can_go_on};
    ghost use Rattle.hart_core.specs.Access.{IsProper};
    ghost use Rattle.hart_core.specs.Meaning.{IsFound, need_at};

    /// Whether it has not ended and has instructions left to retire.
    fn can_go_on(&self, topology: &Topology) -> bool
        ensures { result ≡ can_go_on topology.now self.now }
    {
        matches!(self.end, End::Running) && self.retired < topology.budget
    }

    /// What stands at its pc.
    fn find(&self, image: &Image) -> Found
        ensures { IsFound image.now self.now.pc result }
    {
        match image.fetch(self.pc) {
            None => Found::NoWord,
            Some(word) => match decode(word) {
                None => Found::NoInstr(word),
                Some(instr) => Found::This(instr),
            },
        }
    }

    /// What it needs where this stands at its pc.
    fn need_at(&self, image: &Image, topology: &Topology, found: &Found) -> Need
        ensures need { result ≡ need_at image.now topology.now self.now found.now }
        ensures proper { IsProper topology.now result }
    {
        match found {
            Found::NoWord => trap(Trap::Fetch, self.pc),
            Found::NoInstr(word) => trap(Trap::Illegal, *word),
            Found::This(instr) => self.instr_need(image, topology, instr),
        }
    }
}

impl Hart {
    ghost use Rattle.std.specs.Prelude.{◌≡◌, ◌+◌, ◌<◌, ◌^◌, IsTrue};
    ghost use Rattle.hart_core.specs.HartState.{reg, with_register, retired_to};
    ghost use Rattle.rv32_alu.specs.Arithmetic.{moved_by};
    ghost use Rattle.hart_core.specs.Access.{IsProper};
    ghost use Rattle.hart_core.specs.Meaning.{instr_need, call_need, next_pc, following, performed, with_result, ended, after_need};

    /// Does what it needed, with this answer.
    fn answer(&mut self, found: &Found, need: &Need, answer: u32)
        requires { self.old.retired + 1 < 2 ^ 32 }
        ensures { self.new ≡ after_need self.old found.now need.now answer }
    {
        match need {
            Need::Stop { end } => self.stop(*end),
            _ => {
                if let Found::This(instr) = found {
                    self.perform(instr, answer);
                }
            }
        }
    }

    /// What an instruction needs.
    fn instr_need(&self, image: &Image, topology: &Topology, instr: &Instr) -> Need
        ensures need { result ≡ instr_need image.now topology.now self.now instr.now }
        ensures proper { IsProper topology.now result }
    {
        match instr {
            Instr::Jal(_) | Instr::Jalr(_) => jump_need(self.next_pc(instr)),
            Instr::Branch(i) => {
                if branch(i.op, self.reg(i.rs1), self.reg(i.rs2)) {
                    jump_need(self.pc.wrapping_add_signed(i.offset))
                } else {
                    Need::Alu
                }
            }
            Instr::Load(i) => load_need(image, topology, i.op, self.address(i.rs1, i.offset)),
            Instr::Store(i) => {
                let address = self.address(i.rs1, i.offset);
                store_need(image, topology, i.op, address, self.reg(i.rs2))
            }
            Instr::OpImm(_) => match hint(instr) {
                Some(hint) => Need::Hint {
                    kind: hint.kind,
                    address: self.address(hint.rs1, hint.offset),
                },
                None => Need::Alu,
            },
            Instr::Amo(i) => {
                let operand = self.reg(i.rs2);
                amo_need(image, topology, self.reg(i.rs1), i.op, i.labels, operand)
            }
            Instr::Fence(i) => Need::Fence {
                waits: i.pred % 2 == 1 && i.succ != 0,
            },
            Instr::Ecall => self.call_need(),
            Instr::Ebreak => trap(Trap::Break, 0),
            _ => Need::Alu,
        }
    }

    /// What a call needs, by the number in a7.
    fn call_need(&self) -> Need
        ensures need { result ≡ call_need self.now }
    {
        match self.reg(17) {
            1 => Need::Put {
                byte: (self.reg(10) & 0xff) as u8,
            },
            93 => Need::Stop {
                end: End::Exited(self.reg(10)),
            },
            number => trap(Trap::BadCall, number),
        }
    }

    /// The address at which it goes on after an instruction.
    fn next_pc(&self, instr: &Instr) -> u32
        ensures { result ≡ next_pc self.now instr.now }
    {
        match instr {
            Instr::Jal(i) => self.pc.wrapping_add_signed(i.offset),
            Instr::Jalr(i) => {
                let target = self.address(i.rs1, i.offset);
                target - target % 2
            }
            Instr::Branch(i) => {
                if branch(i.op, self.reg(i.rs1), self.reg(i.rs2)) {
                    self.pc.wrapping_add_signed(i.offset)
                } else {
                    self.following()
                }
            }
            _ => self.following(),
        }
    }

    /// Does an instruction that doesn't end it.
    fn perform(&mut self, instr: &Instr, answer: u32)
        requires { self.old.retired + 1 < 2 ^ 32 }
        ensures { self.new ≡ performed self.old instr.now answer }
    {
        let target = self.next_pc(instr);
        self.write_result(instr, answer);
        self.retire_to(target);
    }

    /// Writes an instruction's destination register.
    fn write_result(&mut self, instr: &Instr, answer: u32)
        ensures { self.new ≡ with_result self.old instr.now answer }
    {
        match instr {
            Instr::Lui(i) => self.set(i.rd, i.imm),
            Instr::Auipc(i) => self.set(i.rd, self.pc.wrapping_add(i.imm)),
            Instr::Jal(i) => self.set(i.rd, self.following()),
            Instr::Jalr(i) => self.set(i.rd, self.following()),
            Instr::Load(i) => {
                let address = self.address(i.rs1, i.offset);
                self.set(i.rd, loaded(i.op, address, answer));
            }
            Instr::OpImm(i) => {
                let value = alu(i.op, self.reg(i.rs1), i.imm.cast_unsigned());
                self.set(i.rd, value);
            }
            Instr::Op(i) => {
                let value = alu(i.op, self.reg(i.rs1), self.reg(i.rs2));
                self.set(i.rd, value);
            }
            Instr::Amo(i) => self.set(i.rd, answer),
            _ => {}
        }
    }

    /// The address at an offset from a register's value.
    fn address(&self, rs1: u32, offset: i32) -> u32
        requires { rs1 < 32 }
        ensures { result ≡ moved_by (reg self.now rs1) offset }
    {
        self.reg(rs1).wrapping_add_signed(offset)
    }

    /// The address of the next instruction in line.
    fn following(&self) -> u32
        ensures { result ≡ following self.now }
    {
        self.pc.wrapping_add(4)
    }

    /// Writes a register; register 0 stays 0.
    fn set(&mut self, rd: u32, value: u32)
        requires { rd < 32 }
        ensures { self.new ≡ with_register self.old rd value }
    {
        if rd != 0 {
            self.registers[rd as usize] = value;
        }
    }

    fn retire_to(&mut self, target: u32)
        requires { self.old.retired + 1 < 2 ^ 32 }
        ensures { self.new ≡ retired_to self.old target }
    {
        self.pc = target;
        self.retired += 1;
    }

    /// Ends it: an exit retires, a trap does not.
    fn stop(&mut self, end: End)
        requires { self.old.retired + 1 < 2 ^ 32 }
        ensures { self.new ≡ ended self.old end }
    {
        if let End::Exited(_) = end {
            self.retired += 1;
        }
        self.end = end;
    }
}

fn trap(cause: Trap, value: u32) -> Need
    ensures { result ≡ Stop (Trapped cause value) }
{
    Need::Stop {
        end: End::Trapped { cause, value },
    }
}

/// What a jump needs: nothing, or the trap of a target that is no multiple of 4.
fn jump_need(target: u32) -> Need
    ensures { result ≡ jump_need target }
{
    if target % 4 == 0 {
        Need::Alu
    } else {
        trap(Trap::Misaligned, target)
    }
}
