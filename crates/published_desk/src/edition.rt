//! What is shown of a version.

ghost use Rattle.std.specs.Prelude.{◌≡◌, IfOk};
ghost use Rattle.std.specs.Arc.{arc_value};

use crate::notice::Notice;
use desk_rows::Rows;
use left_right::Absorb;
use reversible_rows::ReversibleRows;
use std::alloc::AllocError;
use std::marker::Model;
use std::sync::Arc;
use undo_log::Listed;

/// The rows at a version, which several may own, and its notice.
#[derive(Drop)]
pub struct Edition {
    rows: Arc<Listed<ReversibleRows>>,
    notice: Notice,
}

impl Model for Edition {
    ghost use Rattle.std.specs.Arc.{arc_value};
    ghost use Rattle.published_desk.specs.inner.Page.{Page};

    ghost Value = { Page };

    ghost view = { λ e. record { notice = e.notice; desk = arc_value e.rows } };
}

impl Edition {
    /// An edition of these rows. The notice is of their version.
    pub fn new(rows: Arc<Listed<ReversibleRows>>, notice: Notice) -> Edition
        ensures { result ≡ record { notice = notice; desk = arc_value rows } }
    {
        Edition { rows, notice }
    }

    /// The rows.
    pub fn rows(&self) -> &Rows
        ensures { result.now ≡ self.now.desk }
    {
        self.rows.inner().rows()
    }

    /// The notice of the version.
    pub fn notice(&self) -> &Notice
        ensures { result.now ≡ self.now.notice }
    {
        &self.notice
    }

    /// One more owner of the same rows. The only error is that their count of owners is full.
    pub fn again(&self) -> Result<Edition, AllocError>
        ensures { IfOk result (λ edition. edition ≡ self.now) }
    {
        Ok(Edition {
            rows: Arc::try_clone(&self.rows)?,
            notice: self.notice.again(),
        })
    }
}

/// An edition is followed by the next one as a whole, so no edit is judged here.
impl Absorb<Edition> for Edition {
    type State = Edition;

    ghost state = { λ e. e };

    ghost applied = { λ before next. next };

    fn absorb_first(&mut self, next: &Edition, _other: &Edition) -> Result<(), AllocError> {
        *self = next.again()?;
        Ok(())
    }

    fn absorb_second(&mut self, next: Edition, _other: &Edition) -> Result<(), Edition> {
        *self = next;
        Ok(())
    }
}
