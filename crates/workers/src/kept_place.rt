//! Places that are lent to a run, and come back as those that came.

ghost use Rattle.std.specs.Prelude.{◌≡◌, [], List, Option, IfErr, refl};
ghost use Rattle.workers.specs.Leading.{AreLedFrom, GoesOnFrom, IsLedFrom};

use crate::place::Place;
use descriptor::NodeId;
use plan_events::{Job, Outcome};
use std::alloc::{AllocError, Global};
use std::marker::{Brand, PhantomData};
use std::sync::Mutex;

/// Which places came, each by its number.
pub trait PlacesBrand<K> {
    ghost came: { List (Option K) };
}

impl<K> PlacesBrand<K> for Brand {
    ghost came = { [] };
}

/// A place that came as the one of its number, of those of this brand, and was asked for one job after the other since. What
/// a lock holds no clause can say: of this it is known each time that the lock is taken.
#[derive(Drop)]
pub struct KeptPlace<B: Job, K: Place<B> + Drop, M: PlacesBrand<K>> {
    number: usize,
    place: K,
    brand: PhantomData<(B, M)>,
    pub ghost led: { ∥ IsLedFrom K.led M.came number place ∥₁ },
}

impl<B: Job, K: Place<B> + Drop, M: PlacesBrand<K>> Place<B> for KeptPlace<B, K, M> {
    ghost led = { λ first now. (now.number ≡ first.number) × K.led first.place now.place };

    ghost unasked = { λ kept. (refl, K.unasked kept.place) };

    fn run(&mut self, node: NodeId, job: &mut B) -> Outcome {
        self.place.run(node, job)
    }

    fn is_open(&self) -> bool {
        self.place.is_open()
    }
}

/// Takes the place of this number, if there is one.
fn take_place<B: Job, K: Place<B> + Drop, M: PlacesBrand<K>>(
    places: &mut [Option<K>],
    number: usize,
) -> Option<KeptPlace<B, K, M>>
    requires { AreLedFrom K.led M.came places.old }
    ensures led { AreLedFrom K.led M.came places.new }
{
    if number >= places.len() {
        return None;
    }
    let place = std::mem::replace(&mut places[number], None)?;
    Some(KeptPlace {
        number,
        place,
        brand: PhantomData,
    })
}

/// Puts this place where it was taken from.
fn put_back<B: Job, K: Place<B> + Drop, M: PlacesBrand<K>>(
    places: &mut [Option<K>],
    kept: KeptPlace<B, K, M>,
)
    requires { AreLedFrom K.led M.came places.old }
    ensures led { AreLedFrom K.led M.came places.new }
{
    let KeptPlace {
        number,
        place,
        brand: _,
    } = kept;
    if number < places.len() {
        places[number] = Some(place);
    }
}

/// Takes the places up to the first that is missing, and puts each under a lock, as a run borrows them. For want of memory
/// none is taken.
pub fn lend_places<B: Job, K: Place<B> + Drop, M: PlacesBrand<K>>(
    alloc: Global,
    places: &mut [Option<K>],
) -> Result<Vec<Mutex<KeptPlace<B, K, M>>>, AllocError>
    requires { AreLedFrom K.led M.came places.old }
    ensures led { AreLedFrom K.led M.came places.new }
    ensures unlent { IfErr result (λ _. places.new ≡ places.old) }
{
    let mut lent = Vec::with_capacity(alloc, places.len())?;
    for number in 0..places.len() {
        match take_place(places, number) {
            Some(kept) => lent.push_reserved(Mutex::new(kept)),
            None => return Ok(lent),
        }
    }
    Ok(lent)
}

/// Puts the places that were lent back, each where it was taken from.
pub fn take_back<B: Job, K: Place<B> + Drop, M: PlacesBrand<K>>(
    places: &mut [Option<K>],
    lent: Vec<Mutex<KeptPlace<B, K, M>>>,
)
    requires { AreLedFrom K.led M.came places.old }
    ensures led { AreLedFrom K.led M.came places.new }
{
    for kept in lent {
        put_back(places, kept.into_inner());
    }
}
