//! The members of libraries, in library order.

ghost use Rattle.std.specs.Prelude.{◌≡◌, ◌<◌, ◌++◌, length, slice_get, IsSomeAnd, OnOk, IfOk};
ghost use Rattle.link_model.specs.Members.{members_of};
ghost use Rattle.link_select.specs.Places.{places_in, places_from, member_at, symbols_of};

use alf_archive::{Archive, Member};
use aof_object::Symbol;
use link_model::Named;
use sdt_fault::NoMemory;
use std::alloc::Global;

/// Where a member is: the number of its library and its number there, both counted from 0.
#[derive(Clone, Copy)]
pub struct MemberPlace {
    pub archive: usize,
    pub member: usize,
}

fn push_places(
    places: &mut Vec<MemberPlace>,
    archive: usize,
    members: &[Member],
) -> Result<(), NoMemory>
    ensures { OnOk result (places.new.items ≡ places.old.items ++ places_in archive 0 members.now) }
{
    for member in 0..members.len() {
        places.push(MemberPlace { archive, member })?;
    }
    Ok(())
}

/// The place of each member.
pub fn places_of(alloc: Global, archives: &[Named<Archive>]) -> Result<Vec<MemberPlace>, NoMemory>
    ensures { IfOk result (λ places. places.items ≡ places_from 0 archives.now) }
{
    let mut places = Vec::new(alloc);
    for (i, archive) in archives.iter().enumerate() {
        push_places(&mut places, i, archive.value.members.as_slice())?;
    }
    Ok(places)
}

fn symbols_at<'a>(archives: &'a [Named<Archive>], place: MemberPlace) -> &'a [Symbol]
    ensures { result.now ≡ symbols_of (member_at archives.now place) }
{
    match archives.get(place.archive) {
        None => &[],
        Some(archive) => match archive.value.members.as_slice().get(place.member) {
            None => &[],
            Some(member) => member.object.symbols.as_slice(),
        },
    }
}

/// The symbols of the member of a number in library order.
pub fn symbols_of_member<'a>(
    archives: &'a [Named<Archive>],
    places: &[MemberPlace],
    number: usize,
) -> &'a [Symbol]
    requires places { places.now ≡ places_from 0 archives.now }
    requires number { number < length places.now }
    ensures { IsSomeAnd (slice_get (members_of archives.now) number) (λ member. member.value.symbols ≡ result.now) }
{
    symbols_at(archives, places[number])
}
