//! What a signal knows.

ghost use Rattle.std.specs.Prelude.{◌≡◌, true, false};
ghost use Rattle.media_workers.specs.inner.Passing.{lets_pass, raised_for};

/// What a signal knows.
#[derive(Clone, Copy)]
pub(crate) struct SignalState {
    /// How many parcels it was raised for.
    pub(crate) parcels: u64,
    /// While it is open, the lane doesn't wait for it.
    pub(crate) is_open: bool,
}

impl SignalState {
    /// Of an open signal that was not raised.
    pub(crate) fn new() -> Self
        ensures { result ≡ record { parcels = 0; is_open = true } }
    {
        Self {
            parcels: 0,
            is_open: true,
        }
    }

    /// Whether the lane may take so many parcels.
    pub(crate) fn let_pass(&self, parcels: u64) -> bool
        ensures { result ≡ lets_pass parcels self.now }
    {
        self.parcels >= parcels || self.is_open
    }

    /// It is raised for so many parcels.
    pub(crate) fn raise(&mut self, parcels: u64)
        ensures { self.new ≡ raised_for parcels self.old }
    {
        self.parcels = self.parcels.saturating_add(parcels);
    }

    /// The lane waits for it from then on.
    pub(crate) fn close(&mut self)
        ensures { self.new ≡ record self.old { is_open = false } }
    {
        self.is_open = false;
    }

    /// The lane waits for it no more.
    pub(crate) fn open(&mut self)
        ensures { self.new ≡ record self.old { is_open = true } }
    {
        self.is_open = true;
    }
}
