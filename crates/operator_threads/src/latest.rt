//! The latest notice that is known.

ghost use Rattle.std.specs.Prelude.{◌≡◌};
ghost use mathlib.Core.List.{IsPrefix};
ghost use Rattle.operator_desk.specs.Answers.{IsNotice};

use operator_desk::DeskBrand;
use published_desk::Notice;
use std::marker::{Model, PhantomData};

/// The latest notice that is known of a hall's desk. Contracts see that notice.
// It has a lock of its own. The desk's is held while a call is judged and published, and a publish waits for readers,
// of which the front is one: media would wait for an operator's call.
#[derive(Drop)]
pub(crate) struct Latest<H: DeskBrand> {
    notice: Notice,
    hall: PhantomData<H>,
}

impl<H: DeskBrand> Model for Latest<H> {
    ghost use Rattle.operator_desk.specs.Answers.{IsNotice};
    ghost use Rattle.published_desk.specs.Published.{NoticeOf};

    ghost Value = { NoticeOf };

    ghost view = { λ l. l.notice };

    ghost invariant = { λ l. IsNotice H.start H.publisher l.notice };
}

impl<H: DeskBrand> Latest<H> {
    /// This notice is the latest one.
    pub fn new(notice: Notice) -> Self
        requires tells { IsNotice H.start H.publisher notice }
        ensures { result ≡ notice }
    {
        Self {
            notice,
            hall: PhantomData,
        }
    }

    /// The notice.
    pub fn again(&self) -> Notice
        ensures same { result ≡ self.now }
        ensures tells { IsNotice H.start H.publisher result }
    {
        self.notice.again()
    }

    /// Learns a notice, and returns the later one of it and the one that was known.
    pub fn learn(&mut self, notice: &Notice) -> Notice
        requires tells { IsNotice H.start H.publisher notice.now }
        ensures this { IsPrefix self.old.lists self.new.lists }
        ensures that { IsPrefix notice.now.lists self.new.lists }
        ensures same { result ≡ self.new }
        ensures tells { IsNotice H.start H.publisher result }
    {
        self.notice = self.notice.later(notice);
        self.again()
    }
}
