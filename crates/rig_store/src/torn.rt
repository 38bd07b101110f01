//! Images that are drawn with a torn sector of a file that a name shows (own).
ghost use Rattle.std.specs.Prelude.{◌≡◌, ◌+◌, ◌<◌, ◌≤◌, ℕ, Some, length, take, get_or, slice_get, true};
ghost use Rattle.std.specs.Prelude.{IfOk, MatchOption};
ghost use Rattle.rig_images.specs.Torn.{NoneTears};
ghost use Rattle.rig_images.specs.declared.torn.Which.TheVariants.{Db};
ghost use Rattle.rig_play.specs.Plays.{Files, files_of};
ghost use Rattle.rig_store.specs.Left.{image_of, MayStand};
ghost use Rattle.rig_store.specs.Names.{holder, is_ordered};
ghost use Rattle.rig_store.specs.Stores.{store_of};
ghost use Rattle.rig_store.specs.Torn.{IsLeftTorn, IsTornIfAny, MayHold, MayLeaveTorn};
ghost use Rattle.rig_store.specs.internal.Showing.{StandBy};
ghost use Rattle.rig_store.specs.internal.Tearing.{IsTorn, NoneTearsAt, NoneTearsAmong, NoneTearsBetween};

use crate::error::StoreError;
use crate::image::{Image, draw, draw_files, draw_next, draw_stand, show};
use crate::store::Store;
use crate::table::holder;
use rand_core::Rng;
use rig_images::Which;
use rig_play::Player;
use std::alloc::Global;

/// A name, and a file with a torn sector that it has behind so many changes of names.
#[derive(Drop)]
pub(crate) struct Torn {
    name: u32,
    stand: usize,
    file: u32,
    /// Those of the file.
    bytes: Vec<u8>,
}

/// Bytes of a file that a crash may leave with a torn sector, drawn, where one may tear.
fn draw_torn_file<R: Rng>(
    alloc: Global,
    rng: &mut R,
    file: &Player,
) -> Result<Option<Vec<u8>>, StoreError>
    ensures { IfOk result (λ torn. MatchOption torn (NoneTears (files_of file.now) Db)
        (λ v. IsLeftTorn (files_of file.now) v.items)) }
{
    let mut image = rig_images::Image::none(alloc);
    let Ok(torn) = rig_images::draw_torn(alloc, rng, file, Which::Db, &mut image) else {
        return Err(StoreError::NoMemory);
    };
    if !torn {
        return Ok(None);
    }
    Ok(Some(image.db))
}

/// The same of the file of a number, where it is there.
fn torn_of<R: Rng>(
    alloc: Global,
    rng: &mut R,
    store: &Store,
    number: u32,
) -> Result<Option<Vec<u8>>, StoreError>
    ensures { IfOk result (λ torn. MatchOption torn
        ((f : Files) → slice_get (store_of store.now).files number ≡ Some f → NoneTears f Db)
        (λ v. (f : Files) × (slice_get (store_of store.now).files number ≡ Some f) × IsLeftTorn f v.items)) }
{
    let i = number as usize;
    if i >= store.files.len() {
        return Ok(None);
    }
    draw_torn_file(alloc, rng, &store.files[i])
}

/// The file that a name has behind so many changes of names.
fn holder_at(store: &Store, name: u32, stand: usize) -> Option<u32>
    requires { stand ≤ length store.now.log.items }
    ensures { result ≡ holder (take stand store.now.log.items) name }
{
    holder(&store.log[..stand], name)
}

/// That file with a torn sector, drawn, where one may tear.
fn torn_held<R: Rng>(
    alloc: Global,
    rng: &mut R,
    store: &Store,
    name: u32,
    stand: usize,
    file: u32,
) -> Result<Option<Torn>, StoreError>
    requires { MayHold (store_of store.now) name stand file }
    ensures { IfOk result (λ torn. MatchOption torn (NoneTearsAt (store_of store.now) name stand)
        (IsTorn (store_of store.now))) }
{
    let found = torn_of(alloc, rng, store, file)?;
    match found {
        Some(bytes) => Ok(Some(Torn {
            name,
            stand,
            file,
            bytes,
        })),
        None => Ok(None),
    }
}

/// The same of a name, which may have none there.
fn torn_at<R: Rng>(
    alloc: Global,
    rng: &mut R,
    store: &Store,
    name: u32,
    stand: usize,
) -> Result<Option<Torn>, StoreError>
    requires name { name < store.now.names }
    requires stands { MayStand (store_of store.now) stand }
    ensures { IfOk result (λ torn. MatchOption torn (NoneTearsAt (store_of store.now) name stand)
        (IsTorn (store_of store.now))) }
{
    match holder_at(store, name, stand) {
        Some(file) => torn_held(alloc, rng, store, name, stand, file),
        None => Ok(None),
    }
}

/// The first of those that a name has behind changes of names, from so many to fewer than so many.
fn torn_between<R: Rng>(
    alloc: Global,
    rng: &mut R,
    store: &Store,
    name: u32,
    from: usize,
    to: usize,
) -> Result<Option<Torn>, StoreError>
    requires name { name < store.now.names }
    requires durable { (store_of store.now).durable ≤ from }
    requires within { to ≤ length store.now.log.items + 1 }
    ensures { IfOk result (λ torn. MatchOption torn (NoneTearsBetween (store_of store.now) name from to)
        (IsTorn (store_of store.now))) }
{
    for stand in from..to {
        let found = torn_at(alloc, rng, store, name, stand)?;
        if found.is_some() {
            return Ok(found);
        }
    }
    Ok(None)
}

/// One of those that a crash may leave under a name.
fn torn_name<R: Rng>(
    alloc: Global,
    rng: &mut R,
    store: &Store,
    name: u32,
) -> Result<Option<Torn>, StoreError>
    requires { name < store.now.names }
    ensures { IfOk result (λ torn. MatchOption torn ((n : ℕ) → NoneTearsAt (store_of store.now) name n)
        (IsTorn (store_of store.now))) }
{
    let at = draw_stand(rng, store);
    let found = torn_between(alloc, rng, store, name, at, store.log.len() + 1)?;
    if found.is_some() {
        return Ok(found);
    }
    torn_between(alloc, rng, store, name, store.durable, at)
}

/// The first of those that a crash may leave under the names from one to another.
fn torn_among<R: Rng>(
    alloc: Global,
    rng: &mut R,
    store: &Store,
    from: u32,
    to: u32,
) -> Result<Option<Torn>, StoreError>
    requires { to ≤ store.now.names }
    ensures { IfOk result (λ torn. MatchOption torn (NoneTearsAmong (store_of store.now) from to)
        (IsTorn (store_of store.now))) }
{
    for name in from..to {
        let found = torn_name(alloc, rng, store, name)?;
        if found.is_some() {
            return Ok(found);
        }
    }
    Ok(None)
}

/// One of those that a crash may leave under any name.
fn draw_place<R: Rng>(alloc: Global, rng: &mut R, store: &Store) -> Result<Option<Torn>, StoreError>
    ensures { IfOk result (λ torn. MatchOption torn (NoneTearsAmong (store_of store.now) 0 store.now.names)
        (IsTorn (store_of store.now))) }
{
    let from = (rng.next_u64() % (u64::from(store.names) + 1)) as u32;
    let found = torn_among(alloc, rng, store, from, store.names)?;
    if found.is_some() {
        return Ok(found);
    }
    torn_among(alloc, rng, store, 0, from)
}

/// How many changes of names a crash leaves of a name, drawn: of this one so many.
fn stand_of<R: Rng>(rng: &mut R, store: &Store, other: u32, torn: &Torn) -> usize
    requires { MayStand (store_of store.now) torn.now.stand }
    ensures stand { MayStand (store_of store.now) result }
    ensures same { is_ordered (store_of store.now).meta ≡ true → result ≡ torn.now.stand }
    ensures own { other ≡ torn.now.name → result ≡ torn.now.stand }
{
    if other == torn.name {
        torn.stand
    } else {
        draw_next(rng, store, torn.stand)
    }
}

/// The same of each name.
fn stands_of<R: Rng>(
    alloc: Global,
    rng: &mut R,
    store: &Store,
    torn: &Torn,
) -> Result<Vec<usize>, StoreError>
    requires stands { MayStand (store_of store.now) torn.now.stand }
    requires name { torn.now.name < store.now.names }
    ensures by { IfOk result (λ stands. StandBy (is_ordered (store_of store.now).meta) (store_of store.now)
        stands.items) }
    ensures own { IfOk result (λ stands. get_or stands.items torn.now.name 0 ≡ torn.now.stand) }
{
    let mut stands = Vec::new(alloc);
    for other in 0..store.names {
        stands.push(stand_of(rng, store, other, torn))?;
    }
    Ok(stands)
}

/// An image that is drawn, in which a name shows this file with a torn sector.
fn show_torn<R: Rng>(
    alloc: Global,
    rng: &mut R,
    store: &Store,
    torn: Torn,
) -> Result<Image, StoreError>
    requires { IsTorn (store_of store.now) torn }
    ensures { IfOk result (λ image. MayLeaveTorn (store_of store.now) (image_of image)) }
{
    let stands = stands_of(alloc, rng, store, &torn)?;
    let mut contents = draw_files(alloc, rng, &store.files)?;
    contents[torn.file as usize] = torn.bytes;
    show(alloc, store, &contents, &stands)
}

/// An image that is drawn of those that a crash may leave, in which a name shows a file with a torn sector, where one
/// may tear. NoMemory alone.
pub fn draw_torn<R: Rng>(alloc: Global, rng: &mut R, store: &Store) -> Result<Image, StoreError>
    ensures { IfOk result (λ image. IsTornIfAny (store_of store.now) (image_of image)) }
{
    let found = draw_place(alloc, rng, store)?;
    match found {
        Some(torn) => show_torn(alloc, rng, store, torn),
        None => draw(alloc, rng, store),
    }
}
