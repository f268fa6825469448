// A borrowed disk whose type says which borrow it is.
ghost use Rattle.std.specs.Prelude.{◌≡◌, ℕ};

use olm_disk::Disk;
use olm_io::{Failed, Outage};
use std::marker::{Brand, Model, PhantomData};

/// Which borrow it is: two references with one name are the same borrow.
pub trait Borrow {
    ghost name: { ℕ };
}

/// A call that passes `Brand` picks the name in its proof.
impl Borrow for Brand {
    ghost name = { 0 };
}

/// A borrowed disk that is moved and never borrowed again, so that it keeps its name.
#[derive(Drop)]
pub struct Handle<'a, D> {
    pub disk: &'a mut D,
}

impl<'a, D: Disk> Handle<'a, D> {
    pub fn new(disk: &'a mut D) -> Handle<'a, D>
        ensures same_reference { result.disk.ghost_name ≡ disk.entry.ghost_name }
        ensures same { result.disk.now ≡ disk.old }
    {
        Handle { disk }
    }
}

/// A borrowed disk that stays the borrow `B`, whatever is done to it. Contracts see it as the disk.
#[derive(Drop)]
pub struct Lent<'a, D: Disk, B: Borrow> {
    disk: &'a mut D,
    borrow: PhantomData<B>,
}

impl<'a, D: Disk, B: Borrow> Model for Lent<'a, D, B> {
    ghost use Rattle.std.specs.Prelude.{◌≡◌};

    ghost Value = { D };

    ghost view = { λ l. l.disk.now };

    ghost invariant = { λ l. l.disk.ghost_name ≡ B.name };
}

impl<'a, D: Disk, B: Borrow> Lent<'a, D, B> {
    /// The disk of a handle, if that is the borrow `B`.
    pub fn new(handle: Handle<'a, D>) -> Lent<'a, D, B>
        requires same_reference { handle.disk.ghost_name ≡ B.name }
        ensures same { result ≡ handle.entry.disk.now }
    {
        let Handle { disk } = handle;
        Lent {
            disk,
            borrow: PhantomData,
        }
    }

    /// Gives the borrow back.
    pub fn into_handle(self) -> Handle<'a, D>
        ensures same_reference { result.disk.ghost_name ≡ B.name }
        ensures same { result.disk.now ≡ self.entry }
    {
        let Lent { disk, .. } = self;
        Handle { disk }
    }
}

/// Each call is passed on to the borrowed disk.
impl<'a, D: Disk, B: Borrow> Disk for Lent<'a, D, B> {
    ghost tells = { D.tells };

    ghost content = { D.content };

    ghost pending = { D.pending };

    ghost moment = { D.moment };

    ghost left_since = { D.left_since };

    ghost faults = { D.faults };

    ghost counts_now = { D.counts_now };

    ghost only_now = { D.only_now };

    fn len(&mut self) -> Result<u64, Failed> {
        self.disk.len()
    }

    fn read(&mut self, at: u64, into: &mut [u8]) -> Result<usize, Failed> {
        self.disk.read(at, into)
    }

    fn write_at(&mut self, at: u64, piece: &[u8]) -> Result<(), Outage> {
        self.disk.write_at(at, piece)
    }

    fn cut(&mut self, len: u64) -> Result<(), Outage> {
        self.disk.cut(len)
    }

    fn sync(&mut self) -> Result<(), Failed> {
        self.disk.sync()
    }
}
