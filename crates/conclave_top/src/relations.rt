//! The files of relations.

ghost use Rattle.std.specs.Prelude.{◌≡◌, map, IfOk, IsErrOf, All, length, string_bytes};
ghost use Rattle.std.specs.Str.{IsUtf8};
ghost use Rattle.outside.specs.Cause.{HasCause};
ghost use Rattle.plain_meaning.specs.Fits.{relations};
ghost use Rattle.conclave_top.specs.Effect.{HasRead, IsReading};
ghost use Rattle.conclave_top.specs.End.{Reads};
ghost use Rattle.conclave_top.specs.Job.{reading};
ghost use Rattle.conclave_top.specs.Outside.{folder_at};
ghost use Rattle.conclave_top.specs.Relations.{AreBytes, AreHeld, IsStored, file_names, file_of, GivesTable, GivesTables, table_of, tables_of};

use crate::end::{End, Stop};
use crate::lines::file_line;
use outside::{Folder, FolderFault};
use query_graph::{Graph, Node};
use std::alloc::{AllocError, Global};
use std::str;
use tables::{Table, TableFault, read_table};
use words::Column;

/// The nodes of a graph that are relations, in the order of the text.
pub(crate) fn relations_of<'a>(alloc: Global, graph: &'a Graph) -> Result<Vec<&'a Node>, AllocError>
    ensures are { IfOk result (λ lent. map (λ node. node.now) lent.items ≡ relations graph.now.nodes) }
    ensures stored { IfOk result (λ lent. All (λ node. IsStored node.now) lent.items) }
{
    let mut relations = Vec::new(alloc);
    for node in graph.nodes() {
        if node.shape.is_relation() {
            relations.push(node)?;
        }
    }
    Ok(relations)
}

/// The bytes of the files of these relations in a folder, or how the command ends without them. The folder's name is
/// what stands before each file's name.
pub(crate) fn read_relations<F: Folder>(
    alloc: Global,
    folder: &str,
    relations: &[&Node],
    files: &mut F,
) -> Result<Vec<Vec<u8>>, End>
    requires { All (λ node. IsStored node.now) relations.now }
    ensures { Reads (reading (file_names folder.now (map (λ node. node.now) relations.now)))
        (λ bytes. AreBytes (F.files files.old) folder.now (map (λ node. node.now) relations.now) (map (λ b. b.items) bytes.items))
        (folder_at F.Folder files.old) (folder_at F.Folder files.new) result }
{
    let Ok(names) = names_of(alloc, folder, relations) else {
        return Err(End::Memory);
    };
    match read_all(alloc, &names, files) {
        Ok(bytes) => Ok(bytes),
        Err(FolderFault::Failed) => Err(End::Outside),
        Err(FolderFault::Memory) => Err(End::Memory),
    }
}

/// The names of the files of these relations in a folder.
fn names_of(alloc: Global, folder: &str, relations: &[&Node]) -> Result<Vec<String>, AllocError>
    requires { All (λ node. IsStored node.now) relations.now }
    ensures { IfOk result (λ names. map string_bytes names.items ≡ map (λ node. file_of folder.now node.now) relations.now) }
{
    let mut names = Vec::new(alloc);
    for node in relations {
        names.push(file_name(alloc, folder, node)?)?;
    }
    Ok(names)
}

/// The name of a relation's file in a folder.
fn file_name(alloc: Global, folder: &str, node: &Node) -> Result<String, AllocError>
    requires { IsUtf8 node.now.name }
    ensures { IfOk result (λ name. string_bytes name ≡ file_of folder.now node.now) }
{
    let Ok(name) = str::from_utf8(node.name.bytes()) else {
        unreachable!();
    };
    format!(in alloc; "{folder}{name}.csv")
}

/// The bytes of the files of these names, each read once and in order.
fn read_all<F: Folder>(
    alloc: Global,
    names: &[String],
    files: &mut F,
) -> Result<Vec<Vec<u8>>, FolderFault>
    ensures held { IfOk result (λ bytes. AreHeld (F.files files.old) (map string_bytes names.now) (map (λ b. b.items) bytes.items)) }
    ensures count { IfOk result (λ bytes. length bytes.items ≡ length names.now) }
    ensures read { IfOk result (λ _. HasRead (map string_bytes names.now) (folder_at F.Folder files.old) (folder_at F.Folder files.new)) }
    ensures cut { IsReading (map string_bytes names.now) (folder_at F.Folder files.old) (folder_at F.Folder files.new) }
    ensures cause { HasCause (F.faults files.old) (F.faults files.new) (IsErrOf result FolderFault.Failed) }
{
    let mut all = Vec::new(alloc);
    for name in names {
        let bytes = files.read(name)?;
        all.push(bytes)?;
    }
    Ok(all)
}

/// The tables that these bytes are under the declarations of these relations, or the line of the first that is none.
pub(crate) fn tables_of(
    alloc: Global,
    folder: &str,
    relations: &[&Node],
    bytes: &[Vec<u8>],
) -> Result<Vec<Table>, Stop>
    requires stored { All (λ node. IsStored node.now) relations.now }
    requires as_many { length bytes.now ≡ length relations.now }
    ensures { GivesTables result (tables_of folder.now (map (λ node. node.now) relations.now) (map (λ b. b.items) bytes.now)) }
{
    let mut tables = Vec::new(alloc);
    for (index, node) in relations.iter().enumerate() {
        tables.push(read_one(alloc, folder, node, &bytes[index])?)?;
    }
    Ok(tables)
}

/// A copy of columns.
fn copied(alloc: Global, columns: &[Column]) -> Result<Vec<Column>, AllocError>
    ensures { IfOk result (λ copy. copy.items ≡ columns.now) }
{
    let mut copy = Vec::new(alloc);
    for column in columns {
        copy.push(column.clone()?)?;
    }
    Ok(copy)
}

/// The table that these bytes are under the declaration of a relation, or the line of their fault.
fn read_one(alloc: Global, folder: &str, node: &Node, bytes: &[u8]) -> Result<Table, Stop>
    requires { IsStored node.now }
    ensures { GivesTable result (table_of folder.now node.now bytes.now) }
{
    let columns = copied(alloc, node.columns.as_slice())?;
    match read_table(alloc, bytes, &columns, node.rows) {
        Ok(table) => Ok(table),
        Err(TableFault::Memory) => Err(Stop::Memory),
        Err(fault) => {
            let file = file_name(alloc, folder, node)?;
            let line = file_line(alloc, &file, &columns, fault)?;
            Err(Stop::Line(line))
        }
    }
}
