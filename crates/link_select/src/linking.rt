//! The linked objects.

ghost use Rattle.std.specs.Prelude.{◌≡◌, [], ◌∷◌, ◌++◌, ◌+◌, ◌≤◌, if◌then◌else◌, map, length, OnOk, IfOk};
ghost use Rattle.link_model.specs.Members.{member_name, named_member, members_of};
ghost use Rattle.link_model.specs.Chosen.{taken};
ghost use Rattle.link_select.specs.Search.{marked};

use alf_archive::{Archive, Member};
use aof_object::Object;
use link_model::Named;
use sdt_fault::{NoMemory, Text};
use std::alloc::Global;

/// What reports call a member.
fn name_of_member(alloc: Global, library: &Text, member: &Text) -> Result<Text, NoMemory>
    ensures { IfOk result (λ name. name ≡ member_name library.now member.now) }
{
    let (library, member) = (library.as_slice(), member.as_slice());
    let len = library.len().saturating_add(member.len()).saturating_add(2);
    let mut name = Vec::with_capacity(alloc, len)?;
    name.extend_from_slice(library)?;
    name.extend_from_slice(b"(")?;
    name.extend_from_slice(member)?;
    name.extend_from_slice(b")")?;
    Ok(Text::from_vec(name))
}

/// The member as an object of the link. Its library's name and its own are all that is copied.
fn named_object(alloc: Global, library: &Text, member: Member) -> Result<Named<Object>, NoMemory>
    ensures { IfOk result (λ object. object ≡ named_member library.now member) }
{
    let name = name_of_member(alloc, library, &member.name)?;
    let Member {
        name: module,
        object: value,
    } = member;
    Ok(Named {
        name,
        module,
        value,
    })
}

/// Adds a member, where it has a mark.
fn push_marked(
    alloc: Global,
    linked: &mut Vec<Named<Object>>,
    library: &Text,
    member: Member,
    mark: bool,
) -> Result<(), NoMemory>
    ensures { OnOk result (linked.new.items ≡ linked.old.items ++ (if mark then named_member library.now member ∷ [] else [])) }
{
    if mark {
        linked.push(named_object(alloc, library, member)?)?;
    }
    Ok(())
}

/// Adds the members of a library that have a mark. Their marks begin at a number; gives the next library's.
fn push_chosen(
    alloc: Global,
    linked: &mut Vec<Named<Object>>,
    library: &Text,
    members: Vec<Member>,
    marks: &[bool],
    first: usize,
) -> Result<usize, NoMemory>
    requires { first + length members.items ≤ length marks.now }
    ensures next { IfOk result (λ next. next ≡ first + length members.items) }
    ensures chosen { OnOk result (linked.new.items ≡ linked.old.items ++ taken (marked marks.now) first (map (named_member library.now) members.items)) }
{
    let mut number = first;
    for member in members {
        push_marked(alloc, linked, library, member, marks[number])?;
        number += 1;
    }
    Ok(number)
}

/// The command-line objects, and then the members that have a mark.
pub fn linked_objects(
    alloc: Global,
    objects: Vec<Named<Object>>,
    archives: Vec<Named<Archive>>,
    marks: &[bool],
) -> Result<Vec<Named<Object>>, NoMemory>
    requires { length marks.now ≡ length (members_of archives.items) }
    ensures { IfOk result (λ linked. linked.items ≡ objects.items ++ taken (marked marks.now) 0 (members_of archives.items)) }
{
    let mut linked = objects;
    let mut number = 0;
    for archive in archives {
        let Named { name, value, .. } = archive;
        let members = value.members.into_vec();
        number = push_chosen(alloc, &mut linked, &name, members, marks, number)?;
    }
    Ok(linked)
}
