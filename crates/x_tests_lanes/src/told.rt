//! Notices of the publisher that lanes read.

ghost use Rattle.std.specs.Prelude.{◌≡◌};

use media_workers::PublisherName;
use operator_desk::DeskBrand;
use published_desk::Notice;
use std::marker::PhantomData;

/// The publisher of a desk, by its brand.
pub struct OfBrand<H: DeskBrand> {
    _hall: PhantomData<H>,
}

impl<H: DeskBrand> PublisherName for OfBrand<H> {
    ghost publisher = { H.publisher };
}

/// A notice of the publisher of this name.
#[derive(Drop)]
pub struct Told<N: PublisherName> {
    notice: Notice,
    _publisher: PhantomData<N>,
    ghost of: { notice.publisher ≡ N.publisher },
}

impl<N: PublisherName> Told<N> {
    pub fn new(notice: Notice) -> Told<N>
        requires { notice.publisher ≡ N.publisher }
    {
        Told {
            notice,
            _publisher: PhantomData,
        }
    }

    pub fn again(&self) -> Told<N> {
        Told::new(self.notice.again())
    }

    pub fn into_notice(self) -> Notice
        ensures { result.publisher ≡ N.publisher }
    {
        self.notice
    }
}
