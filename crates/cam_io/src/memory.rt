//! A source and a sink in memory, which fail at the calls whose numbers they are given.
ghost use Rattle.std.specs.Prelude.{◌≡◌, ◌≤◌, ◌<◌, ◌+◌, ◌-◌, ◌^◌, min, ◌++◌, [], Some, drop, length, take, IfOk, OnOk, OnErr, MatchResult, vec_len};
ghost use Rattle.cam_base.specs.Causes.{HasCause};
ghost use Rattle.cam_io.specs.Memory.{IsCounted, IsToFail};
ghost use Rattle.cam_io.specs.Moving.{Moves};

use crate::fault::Failed;
use crate::sink::Sink;
use crate::source::Source;
use std::alloc::Global;
use std::marker::Model;

/// The calls that are to fail, by their numbers from 1, and the calls and failures so far.
#[derive(Drop)]
struct Plan {
    fail: Vec<u32>,
    calls: u32,
    faults: u64,
}

impl Model for Plan {
    ghost use Rattle.cam_io.specs.Memory.{Plan as PlanState};

    ghost Value = { PlanState };

    ghost view = { λ p. record { fail = p.fail.items; calls = p.calls; faults = p.faults } };
}

impl Plan {
    fn new(fail: Vec<u32>) -> Plan
        ensures { result ≡ record { fail = fail.items; calls = 0; faults = 0 } }
    {
        Plan {
            fail,
            calls: 0,
            faults: 0,
        }
    }

    /// Counts a failure, up to the count's last value.
    fn fault(&mut self) -> Failed
        ensures later { self.old.faults ≤ self.new.faults }
        ensures count { self.new.faults ≡ min (self.old.faults + 1) (2 ^ 64 - 1) }
        ensures same { self.new ≡ record self.old { faults = self.new.faults } }
    {
        self.faults = self.faults.saturating_add(1);
        Failed
    }

    /// Counts a call, and fails it if it is to fail.
    fn call(&mut self) -> Result<(), Failed>
        ensures cause { HasCause self.old.faults self.new.faults result }
        ensures steady { OnOk result (self.new.faults ≡ self.old.faults) }
        ensures once { OnErr result (self.new.faults ≡ min (self.old.faults + 1) (2 ^ 64 - 1)) }
        ensures counted { IsCounted self.old self.new }
        ensures planned { MatchResult result (λ _. ¬ (IsToFail self.new)) (λ _. IsToFail self.new) }
    {
        self.calls = self.calls.saturating_add(1);
        if self.fail.contains(&self.calls) {
            return Err(self.fault());
        }
        Ok(())
    }
}

/// A source in memory, which fails the calls of the given numbers, from 1.
#[derive(Drop)]
pub struct MemorySource {
    bytes: Vec<u8>,
    at: usize,
    plan: Plan,
}

impl Model for MemorySource {
    ghost use Rattle.std.specs.Prelude.{◌≤◌, drop, vec_len};
    ghost use Rattle.cam_io.specs.Memory.{MemoryState};

    ghost Value = { MemoryState };

    ghost view = { λ s. record { bytes = drop s.at s.bytes.items; plan = s.plan } };

    ghost invariant = { λ s. s.at ≤ vec_len s.bytes };
}

impl MemorySource {
    /// A source of these bytes that fails the calls of these numbers. All of the bytes are left, and no call was made.
    pub fn new(bytes: Vec<u8>, fail: Vec<u32>) -> MemorySource
        ensures { result ≡ record {
          bytes = bytes.items;
          plan = record { fail = fail.items; calls = 0; faults = 0 };
        } }
    {
        MemorySource {
            bytes,
            at: 0,
            plan: Plan::new(fail),
        }
    }
}

impl Source for MemorySource {
    ghost left = { λ s. Some s.bytes };

    ghost faults = { λ s. s.plan.faults };

    fn read(&mut self, into: &mut [u8]) -> Result<usize, Failed>
        requires { 0 < length into.old }
        ensures count { IfOk result (λ n. n ≤ length into.new) }
        ensures bytes { MatchResult result
            (λ n. Moves self.old.bytes self.new.bytes (take n into.new))
            (λ _. self.new.bytes ≡ self.old.bytes) }
        ensures cause { HasCause self.old.plan.faults self.new.plan.faults result }
        ensures steady { OnOk result (self.new.plan.faults ≡ self.old.plan.faults) }
        ensures once { OnErr result
            (self.new.plan.faults ≡ min (self.old.plan.faults + 1) (2 ^ 64 - 1)) }
        ensures counted { IsCounted self.old.plan self.new.plan }
        ensures planned { MatchResult result (λ _. ¬ (IsToFail self.new.plan))
            (λ _. IsToFail self.new.plan) }
    {
        self.plan.call()?;
        let count = into.len().min(self.bytes.len() - self.at);
        into[..count].copy_from_slice(&self.bytes[self.at..self.at + count]);
        self.at += count;
        Ok(count)
    }
}

/// A sink in memory, which fails the calls of the given numbers, from 1, and each call that finds no memory.
#[derive(Drop)]
pub struct MemorySink {
    text: Vec<u8>,
    plan: Plan,
}

impl Model for MemorySink {
    ghost use Rattle.cam_io.specs.Memory.{MemoryState};

    ghost Value = { MemoryState };

    ghost view = { λ s. record { bytes = s.text.items; plan = s.plan } };
}

impl MemorySink {
    /// A sink that fails the calls of these numbers. Nothing was written, and no call was made.
    pub fn new(alloc: Global, fail: Vec<u32>) -> MemorySink
        ensures { result ≡ record {
          bytes = [];
          plan = record { fail = fail.items; calls = 0; faults = 0 };
        } }
    {
        MemorySink {
            text: Vec::new(alloc),
            plan: Plan::new(fail),
        }
    }

    /// What was written.
    pub fn text(&self) -> &[u8]
        ensures { result.now ≡ self.now.bytes }
    {
        &self.text
    }
}

impl Sink for MemorySink {
    ghost written = { λ s. Some s.bytes };

    ghost faults = { λ s. s.plan.faults };

    fn write(&mut self, piece: &[u8]) -> Result<usize, Failed>
        requires { 0 < length piece.now }
        ensures count { IfOk result (λ n. (1 ≤ n) × (n ≤ length piece.now)) }
        ensures bytes { MatchResult result
            (λ n. self.new.bytes ≡ self.old.bytes ++ take n piece.now)
            (λ _. self.new.bytes ≡ self.old.bytes) }
        ensures cause { HasCause self.old.plan.faults self.new.plan.faults result }
        ensures steady { OnOk result (self.new.plan.faults ≡ self.old.plan.faults) }
        ensures once { OnErr result
            (self.new.plan.faults ≡ min (self.old.plan.faults + 1) (2 ^ 64 - 1)) }
        ensures counted { IsCounted self.old.plan self.new.plan }
        ensures planned { OnOk result (¬ (IsToFail self.new.plan)) }
    {
        self.plan.call()?;
        match self.text.extend_from_slice(piece) {
            Ok(()) => Ok(piece.len()),
            Err(_) => Err(self.plan.fault()),
        }
    }
}
