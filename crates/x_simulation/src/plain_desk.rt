//! The desk of the model.

use bridge_core::Core;
use desk_calls::Reply;
use desk_edit::Call;
use desk_text::{Fault, print_reply, print_rows};
use operator_lines::{LeaseAsk, LineDesk, View};
use std::alloc::{AllocError, Global};

/// The desk and the lanes of the model: a bridge of one thread.
#[derive(Drop)]
pub struct PlainDesk {
    pub core: Core,
    /// How many calls were accepted.
    pub accepted: u64,
}

impl PlainDesk {
    /// The number by which the last call can be undone or redone. Where there is nobody beside the beat's two members,
    /// it is 0, which is no call's, so that nobody undoes the beat.
    pub fn last(&self) -> u64 {
        if self.core.rows().members().len() > 2 {
            self.core.version()
        } else {
            0
        }
    }
}

impl LineDesk for PlainDesk {
    ghost use Rattle.std.specs.Prelude.{◌≡◌};

    ghost replies = { λ moment old new call text. text ≡ text };

    ghost shows = { λ desk view text. text ≡ text };

    fn reply(
        &mut self,
        alloc: Global,
        _moment: u64,
        _line: &[u8],
        call: Call,
        out: &mut Vec<u8>,
    ) -> Result<(), AllocError> {
        let reply = self.core.desk(alloc, 0, call);
        if let Reply::Accepted { .. } = reply {
            self.accepted = self.accepted.saturating_add(1);
        }
        print_reply(&reply, out)
    }

    /// A script doesn't ask for a watch.
    fn watch(
        &mut self,
        _alloc: Global,
        _moment: u64,
        _is_named: bool,
        _out: &mut Vec<u8>,
    ) -> Result<(), AllocError> {
        Ok(())
    }

    /// So there are no news.
    fn tell_news(
        &mut self,
        _alloc: Global,
        _moment: u64,
        _out: &mut Vec<u8>,
    ) -> Result<(), AllocError> {
        Ok(())
    }

    /// Nor for the calls.
    fn tell_calls(
        &mut self,
        _alloc: Global,
        _moment: u64,
        _most: u64,
        _out: &mut Vec<u8>,
    ) -> Result<(), AllocError> {
        Ok(())
    }

    /// Nor does it name its connection.
    fn rename(
        &mut self,
        _alloc: Global,
        _moment: u64,
        _name: &[u8],
        _out: &mut Vec<u8>,
    ) -> Result<(), AllocError> {
        Ok(())
    }

    /// Nor for a lease.
    fn lease(
        &mut self,
        _alloc: Global,
        _moment: u64,
        _ask: LeaseAsk,
        _out: &mut Vec<u8>,
    ) -> Result<(), AllocError> {
        Ok(())
    }

    /// Faults aren't asked about.
    fn note_fault(
        &mut self,
        _alloc: Global,
        _moment: u64,
        _line: &[u8],
        _word: u32,
        _fault: Fault,
    ) -> Result<(), AllocError> {
        Ok(())
    }

    /// A script doesn't ask for the history, nor for what the bridge counts.
    fn show(&self, _alloc: Global, _view: View, out: &mut Vec<u8>) -> Result<(), AllocError> {
        print_rows(self.core.rows(), self.core.version(), out)
    }
}
