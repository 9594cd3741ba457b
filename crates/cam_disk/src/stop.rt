// A disk that can be stopped, as a machine that loses its power.
ghost use Rattle.std.specs.Prelude.{◌≡◌, ◌+◌, ◌-◌, ◌^◌, min, OnOk, OnErr, IfErr};
ghost use Rattle.cam_disk.specs.declared.error.DiskError.TheVariants.{Failed};
ghost use Rattle.cam_disk.specs.Stop.{IsPassed};
ghost use Rattle.cam_disk.specs.Disk.{FailsWithCause};
ghost use Rattle.cam_disk.specs.Stopping.{passing_on, within, with_passes};

use crate::disk::Disk;
use crate::error::DiskError;

/// A disk that can be stopped: from then on it does no call, and each fails.
#[derive(Drop)]
pub struct StopDisk<D> {
    inner: D,
    /// How many calls it still passes on. None: all.
    passes: Option<u32>,
    own_faults: u64,
}

impl<D: Disk> StopDisk<D> {
    /// A disk that passes all calls on.
    pub fn new(inner: D) -> StopDisk<D>
        ensures { result ≡ passing_on inner }
    {
        StopDisk {
            inner,
            passes: None,
            own_faults: 0,
        }
    }

    /// The inner disk, to look at.
    pub fn inner(&self) -> &D
        ensures { result.now ≡ within self.now }
    {
        &self.inner
    }

    /// The inner disk, as it is.
    pub fn into_inner(self) -> D
        ensures { result ≡ within self }
    {
        self.inner
    }

    /// Lets it pass this many calls on, and fail each later one without doing it.
    pub fn stop_after(&mut self, calls: u32)
        ensures { self.new ≡ with_passes (Some calls) self.old }
    {
        self.passes = Some(calls);
    }

    /// Lets it pass all calls on again.
    pub fn clear(&mut self)
        ensures { self.new ≡ with_passes None self.old }
    {
        self.passes = None;
    }

    /// Counts a call, and fails it if none is left.
    fn pass(&mut self) -> Result<(), DiskError>
        ensures same { self.new.inner ≡ self.old.inner }
        ensures passed { OnOk result (IsPassed self.old.passes self.new.passes
            × (self.new.own_faults ≡ self.old.own_faults)) }
        ensures stopped { OnErr result ((self.old.passes ≡ Some 0) × (self.new.passes ≡ Some 0)) }
        ensures counted { OnErr result
            (self.new.own_faults ≡ min (self.old.own_faults + 1) (2 ^ 64 - 1)) }
        ensures failed { IfErr result (λ error. error ≡ Failed) }
        ensures cause { FailsWithCause (self.old.own_faults + D.faults self.old.inner)
            (self.new.own_faults + D.faults self.new.inner) result }
    {
        match &mut self.passes {
            None => Ok(()),
            Some(0) => {
                self.own_faults = self.own_faults.saturating_add(1);
                Err(DiskError::Failed)
            }
            Some(calls) => {
                *calls -= 1;
                Ok(())
            }
        }
    }
}

impl<D: Disk> Disk for StopDisk<D> {
    ghost tells = { λ s. D.tells s.inner };

    ghost seen = { λ s. D.seen s.inner };

    ghost may_leave = { λ s. D.may_leave s.inner };

    ghost moment = { λ s. D.moment s.inner };

    ghost left_since = { λ s. D.left_since s.inner };

    ghost faults = { λ s. s.own_faults + D.faults s.inner };

    ghost faults_within = { λ s. D.faults s.inner };

    ghost passes = { λ s. s.passes };

    ghost own_faults = { λ s. s.own_faults };

    ghost same_within = { λ old new. new.inner ≡ old.inner };

    ghost kept = { λ s. D.kept s.inner };

    ghost counts_now = { λ s. D.counts_now s.inner };

    ghost only_now = { λ s. D.only_now s.inner };

    #[tactic(auto, using(crate::specs::Stop::stops_done, crate::specs::Stop::stops_not_done))]
    fn read(&mut self, at: u64, into: &mut [u8]) -> Result<usize, DiskError> {
        self.pass()?;
        self.inner.read(at, into)
    }

    #[tactic(auto, using(crate::specs::Stop::stops_done, crate::specs::Stop::stops_not_done))]
    fn write_at(&mut self, at: u64, bytes: &[u8]) -> Result<(), DiskError> {
        self.pass()?;
        self.inner.write_at(at, bytes)
    }

    #[tactic(auto, using(crate::specs::Stop::stops_done, crate::specs::Stop::stops_not_done))]
    fn cut(&mut self, size: u64) -> Result<(), DiskError> {
        self.pass()?;
        self.inner.cut(size)
    }

    #[tactic(auto, using(crate::specs::Stop::stops_done, crate::specs::Stop::stops_not_done))]
    fn sync(&mut self) -> Result<(), DiskError> {
        self.pass()?;
        self.inner.sync()
    }

    fn spoil(&mut self) {
        self.inner.spoil()
    }
}
