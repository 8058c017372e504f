//! The two worlds of an audit.

ghost use Rattle.std.specs.Prelude.{◌≡◌, ◌++◌, All, IfOk, codes, length, map, string_bytes};
ghost use Rattle.plain_meaning.specs.Fits.{IsWorldOf};
ghost use Rattle.plain_meaning.specs.Plain.{rows_of_tables};
ghost use Rattle.conclave_top.specs.Audit.{GivesBoth, IsDifferenceFor, both, inside};
ghost use Rattle.conclave_top.specs.End.{Reads};
ghost use Rattle.conclave_top.specs.Job.{reading};
ghost use Rattle.conclave_top.specs.Outside.{folder_at};
ghost use Rattle.conclave_top.specs.Relations.{AreBytes, GivesTables, IsStored, file_names, tables_of};

use crate::audit::Question;
use crate::end::{End, Stop};
use crate::relations::{read_relations, tables_of};
use lanes::Party;
use lowering::Plan;
use outside::Folder;
use plain_meaning::World;
use query_graph::Node;
use std::alloc::{AllocError, Global};
use tables::Table;
use trust_sets::{Differs, agree};

/// What there is of each of two worlds.
#[derive(Drop)]
pub(crate) struct Two<T> {
    pub(crate) first: T,
    pub(crate) second: T,
}

/// The bytes of the files of these relations in both folders, or how the command ends without them.
pub(crate) fn read_worlds<F: Folder>(
    alloc: Global,
    asked: &Question<'_>,
    relations: &[&Node],
    files: &mut F,
) -> Result<Two<Vec<Vec<u8>>>, End>
    requires { All (λ node. IsStored node.now) relations.now }
    ensures { Reads (reading (file_names (inside asked.now.first.now) (map (λ node. node.now) relations.now) ++ file_names (inside asked.now.second.now) (map (λ node. node.now) relations.now)))
        (λ bytes. AreBytes (F.files files.old) (inside asked.now.first.now) (map (λ node. node.now) relations.now) (map (λ b. b.items) bytes.first.items)
        × AreBytes (F.files files.old) (inside asked.now.second.now) (map (λ node. node.now) relations.now) (map (λ b. b.items) bytes.second.items))
        (folder_at F.Folder files.old) (folder_at F.Folder files.new) result }
{
    let first = read_world(alloc, asked.first, relations, files)?;
    let second = read_world(alloc, asked.second, relations, files)?;
    Ok(Two { first, second })
}

/// The bytes of the files of these relations in a folder, or how the command ends without them.
fn read_world<F: Folder>(
    alloc: Global,
    folder: &str,
    relations: &[&Node],
    files: &mut F,
) -> Result<Vec<Vec<u8>>, End>
    requires { All (λ node. IsStored node.now) relations.now }
    ensures { Reads (reading (file_names (inside folder.now) (map (λ node. node.now) relations.now)))
        (λ bytes. AreBytes (F.files files.old) (inside folder.now) (map (λ node. node.now) relations.now) (map (λ b. b.items) bytes.items))
        (folder_at F.Folder files.old) (folder_at F.Folder files.new) result }
{
    let Ok(inside) = inside(alloc, folder) else {
        return Err(End::Memory);
    };
    read_relations(alloc, &inside, relations, files)
}

/// What stands before the name of a file in a folder.
fn inside(alloc: Global, folder: &str) -> Result<String, AllocError>
    ensures { IfOk result (λ name. string_bytes name ≡ inside folder.now) }
{
    format!(in alloc; "{folder}/")
}

/// The tables that these bytes are in both folders, or the line of the first that is none.
pub(crate) fn tables_of_both(
    alloc: Global,
    asked: &Question<'_>,
    relations: &[&Node],
    bytes: &Two<Vec<Vec<u8>>>,
) -> Result<Two<Vec<Table>>, Stop>
    requires stored { All (λ node. IsStored node.now) relations.now }
    requires first { length bytes.now.first.items ≡ length relations.now }
    requires second { length bytes.now.second.items ≡ length relations.now }
    ensures { GivesBoth result (tables_of (inside asked.now.first.now) (map (λ node. node.now) relations.now) (map (λ b. b.items) bytes.now.first.items))
        (tables_of (inside asked.now.second.now) (map (λ node. node.now) relations.now) (map (λ b. b.items) bytes.now.second.items)) }
{
    let first = tables_in(alloc, asked.first, relations, &bytes.first)?;
    let second = tables_in(alloc, asked.second, relations, &bytes.second)?;
    Ok(Two { first, second })
}

/// The tables that these bytes are in a folder, or the line of the first that is none.
fn tables_in(
    alloc: Global,
    folder: &str,
    relations: &[&Node],
    bytes: &[Vec<u8>],
) -> Result<Vec<Table>, Stop>
    requires stored { All (λ node. IsStored node.now) relations.now }
    requires as_many { length bytes.now ≡ length relations.now }
    ensures { GivesTables result (tables_of (inside folder.now) (map (λ node. node.now) relations.now) (map (λ b. b.items) bytes.now)) }
{
    let inside = inside(alloc, folder)?;
    tables_of(alloc, &inside, relations, bytes)
}

/// The first part of agreement for a party in which two worlds of a plan's graph differ, if one does.
pub(crate) fn difference(
    alloc: Global,
    plan: &Plan,
    party: Party,
    worlds: &Two<World>,
) -> Result<Option<Differs>, AllocError>
    requires first { IsWorldOf plan.now.graph.nodes (rows_of_tables worlds.now.first) }
    requires second { IsWorldOf plan.now.graph.nodes (rows_of_tables worlds.now.second) }
    ensures { IfOk result (λ differs. IsDifferenceFor plan.now party (worlds.now.first, worlds.now.second) differs) }
{
    // Its contract says that nothing of the query isn't built, so no bound is written and no world has an excess.
    let _ = plan.list();
    agree(
        alloc,
        plan.graph(),
        plan.trust(),
        party.number(),
        &worlds.first,
        &worlds.second,
        None,
        None,
    )
}
