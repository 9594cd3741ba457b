//! The script that is made from a seed.

ghost use Rattle.std.specs.Prelude.{◌≡◌, ◌<◌, OnOk, IfOk, string_bytes};
ghost use Rattle.cam_gen.specs.Script.{begin_step, ask_step, operation_step, call_step, commit_step};
ghost use Rattle.cam_gen.specs.Script.{abort_step, drain_step, restart_step, step_at, declarations, script_of};
ghost use Rattle.cam_gen.specs.Writes.{WritesStep, WritesOnRegister};

use crate::draws::Draws;
use cam_base::NoMemory;
use std::alloc::Global;
use std::fmt::Write;

/// A script while it is written: its text, how many variables it has, and the generator.
#[derive(Drop)]
pub(crate) struct Writer {
    draws: Draws,
    variables: u32,
    text: String,
}

impl Writer {
    /// `begin`, with a new variable.
    fn begin(&mut self) -> Result<(), NoMemory>
        requires { self.now.variables < 4294967295 }
        ensures { OnOk result (WritesStep begin_step self.old self.new) }
    {
        self.variables += 1;
        let node = self.draws.below(3) + 1;
        writeln!(self.text, "begin A{} {node}", self.variables)?;
        Ok(())
    }

    /// `ask`, of a variable for a new one.
    fn ask(&mut self) -> Result<(), NoMemory>
        requires some { 0 < self.now.variables }
        requires room { self.now.variables < 4294967295 }
        ensures { OnOk result (WritesStep ask_step self.old self.new) }
    {
        let parent = self.draws.below(self.variables) + 1;
        self.variables += 1;
        let node = self.draws.below(3) + 1;
        writeln!(self.text, "ask A{parent} A{} {node}", self.variables)?;
        Ok(())
    }

    /// An operation on a register, by its draw.
    fn register_operation(&mut self, operation: u32) -> Result<(), NoMemory>
        ensures { OnOk result (WritesOnRegister operation self.old self.new) }
    {
        match operation {
            0 => writeln!(self.text, "read")?,
            1 => {
                let value = self.draws.below(100);
                writeln!(self.text, "write {value}")?;
            }
            _ => {
                let value = self.draws.below(100);
                writeln!(self.text, "swap {value}")?;
            }
        }
        Ok(())
    }

    /// An operation on a queue, by its draw.
    fn queue_operation(&mut self, operation: u32) -> Result<(), NoMemory>
        ensures { OnOk result (WritesStep (operation_step 3 operation) self.old self.new) }
    {
        match operation {
            0 => writeln!(self.text, "size")?,
            1 => {
                let value = self.draws.below(100);
                writeln!(self.text, "put {value}")?;
            }
            _ => writeln!(self.text, "take")?,
        }
        Ok(())
    }

    /// `call`, with a variable, an object and an operation on it.
    fn call(&mut self) -> Result<(), NoMemory>
        requires { 0 < self.now.variables }
        ensures { OnOk result (WritesStep call_step self.old self.new) }
    {
        let action = self.draws.below(self.variables) + 1;
        let object = self.draws.below(4);
        let operation = self.draws.below(3);
        if object < 3 {
            write!(self.text, "call A{action} r{} ", object + 1)?;
            self.register_operation(operation)
        } else {
            write!(self.text, "call A{action} q1 ")?;
            self.queue_operation(operation)
        }
    }

    /// `commit` of a variable, with the value 0.
    fn commit(&mut self) -> Result<(), NoMemory>
        requires { 0 < self.now.variables }
        ensures { OnOk result (WritesStep commit_step self.old self.new) }
    {
        let action = self.draws.below(self.variables) + 1;
        writeln!(self.text, "commit A{action} 0")?;
        Ok(())
    }

    /// `abort` of a variable.
    fn abort(&mut self) -> Result<(), NoMemory>
        requires { 0 < self.now.variables }
        ensures { OnOk result (WritesStep abort_step self.old self.new) }
    {
        let action = self.draws.below(self.variables) + 1;
        writeln!(self.text, "abort A{action}")?;
        Ok(())
    }

    /// `drain`.
    fn drain(&mut self) -> Result<(), NoMemory>
        ensures { OnOk result (WritesStep drain_step self.old self.new) }
    {
        writeln!(self.text, "drain")?;
        Ok(())
    }

    /// `restart` of a node.
    fn restart(&mut self) -> Result<(), NoMemory>
        ensures { OnOk result (WritesStep restart_step self.old self.new) }
    {
        let node = self.draws.below(3) + 1;
        writeln!(self.text, "restart {node}")?;
        Ok(())
    }

    /// One step: `begin` while there is no variable, else by the draw of its kind.
    fn step(&mut self) -> Result<(), NoMemory>
        requires { self.now.variables < 4294967295 }
        ensures { OnOk result (WritesStep step_at self.old self.new) }
    {
        if self.variables == 0 {
            return self.begin();
        }
        match self.draws.below(10) {
            0 | 1 => self.begin(),
            2 => self.ask(),
            3..=5 => self.call(),
            6 => self.commit(),
            7 => self.abort(),
            8 => {
                if self.draws.below(8) == 0 {
                    self.restart()
                } else {
                    self.drain()
                }
            }
            _ => self.drain(),
        }
    }
}

/// Three nodes, a register at each, and a queue at the first.
const DECLARATIONS: &str = "nodes 3
object r1 1 register 0
object r2 2 register 0
object r3 3 register 0
object q1 1 queue
";

/// A writer that has the declarations alone.
fn declared(alloc: Global, seed: u64) -> Result<Writer, NoMemory>
    ensures text { IfOk result (λ writer. string_bytes writer.text ≡ declarations) }
    ensures state { IfOk result (λ writer. writer.draws.state ≡ seed) }
    ensures variables { IfOk result (λ writer. writer.variables ≡ 0) }
{
    let mut text = String::new(alloc);
    text.push_str(DECLARATIONS)?;
    Ok(Writer {
        draws: Draws::new(seed),
        variables: 0,
        text,
    })
}

/// The script of `size` steps that is made from a seed: three registers and a queue on three nodes,
/// the steps, and `drain`.
pub fn script_of(alloc: Global, seed: u64, size: u32) -> Result<String, NoMemory>
    ensures { IfOk result (λ text. string_bytes text ≡ script_of seed size) }
{
    let mut writer = declared(alloc, seed)?;
    for _ in 0..size {
        writer.step()?;
    }
    writer.drain()?;
    Ok(writer.text)
}
