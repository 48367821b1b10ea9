//! Reading of board files.
ghost use Rattle.std.specs.Prelude.{◌≡◌, ◌≢◌, IfOk, IfErr, IsUtf8, Ok, Err, map, option_map};
ghost use Rattle.toml.specs.{View.table_view, Parse.parse_document};
ghost use Rattle.model_registers.specs.DeclarationRules.{first_broken};
ghost use Rattle.model_board.specs.AtReset.{IsAtReset};
ghost use Rattle.model_guests.specs.World.{IsLawfulWorld};
ghost use Rattle.board_file.specs.{Functions.standings, KeyProblems.problems_of, Problems.found_of, Meaning.{early_checks, world_in, meaning, document_meaning}, Faults.number_of, declared.fault.BoardFault.TheVariants.{NotToml, Memory}};
ghost use Rattle.board_file.specs.Entries as said;

use crate::board::check_masks_and_build;
use crate::checks::checks_before_masks;
use crate::document::key_problems::key_problems;
use crate::document::reading::read_entries;
use crate::entries::FileEntries;
use crate::fault::BoardFault;
use crate::finding::{Violation, value_problems};
use crate::path::places::{FunctionPath, function_paths_or_zero};
use accesses::GuestDecl;
use host_bridge::Host;
use std::alloc::{AllocError, Global};
use toml::Table;

/// A document with the bytes of its file and the entries read from it. The document may have
/// problems.
#[derive(Drop)]
pub struct Source<'a> {
    /// The bytes of the file.
    pub bytes: &'a [u8],
    pub document: &'a Table,
    pub file: FileEntries<'a>,
    /// The paths of all functions.
    pub functions: Vec<FunctionPath>,
    ghost entries: { file ≡ said.file (table_view document.now) },
    ghost places: { functions.items ≡ standings file },
}

impl<'a> Source<'a> {
    /// Reads the entries of a document. Fails only if memory is exhausted.
    pub fn new(
        alloc: Global,
        bytes: &'a [u8],
        document: &'a Table,
    ) -> Result<Source<'a>, AllocError>
        ensures bytes { IfOk result (λ s. s.bytes.now ≡ bytes.now) }
        ensures document { IfOk result (λ s. s.document.now ≡ document.now) }
    {
        let file = read_entries(alloc, document)?;
        let functions = function_paths_or_zero(alloc, &file)?;
        Ok(Source {
            bytes,
            document,
            file,
            functions,
        })
    }

    /// Returns all problems with this fault, in file order. A problem names the entry, the broken
    /// rule and the key.
    pub fn problems(
        &self,
        alloc: Global,
        fault: BoardFault,
    ) -> Result<Vec<Violation<'a>>, AllocError>
        ensures { let ms = table_view self.now.document.now in
            IfOk result (λ v. map found_of v.items ≡ problems_of ms fault) }
    {
        match fault {
            BoardFault::Key | BoardFault::UnknownKey => key_problems(alloc, self, fault),
            _ => value_problems(alloc, self, fault),
        }
    }

    /// Returns the first fault of the document, except `CellMasks`.
    fn first_fault_before_masks(&self, alloc: Global) -> Result<Option<BoardFault>, AllocError>
        ensures { let ms = table_view self.now.document.now in
            IfOk result (λ found. option_map number_of found ≡ first_broken (early_checks ms)) }
    {
        'checks: for fault in checks_before_masks() {
            if !self.problems(alloc, *fault)?.is_empty() {
                return Ok(Some(*fault));
            }
        }
        Ok(None)
    }

    /// Builds the host and the guests of the document, or returns the fault for which the document
    /// is refused. See [`read_board`] for the order of the checks.
    pub fn build_host_and_guests(&self, alloc: Global) -> Result<(Host, Vec<GuestDecl>), BoardFault>
        ensures world { let ms = table_view self.now.document.now in
            IfOk result (λ r. meaning ms ≡ Ok (world_in r.0 r.1.items)) }
        ensures reset { IfOk result (λ r. IsAtReset r.0.state) }
        ensures lawful { IfOk result (λ r. IsLawfulWorld (world_in r.0 r.1.items)) }
        ensures refused { let ms = table_view self.now.document.now in
            IfErr result (λ e. e ≢ Memory → meaning ms ≡ Err (number_of e)) }
    {
        match self.first_fault_before_masks(alloc)? {
            Some(fault) => Err(fault),
            None => check_masks_and_build(alloc, &self.file),
        }
    }
}

/// Builds the host and the guests of a document.
fn read_document(
    alloc: Global,
    bytes: &[u8],
    document: &Table,
) -> Result<(Host, Vec<GuestDecl>), BoardFault>
    ensures world { IfOk result (λ r.
        meaning (table_view document.now) ≡ Ok (world_in r.0 r.1.items)) }
    ensures reset { IfOk result (λ r. IsAtReset r.0.state) }
    ensures lawful { IfOk result (λ r. IsLawfulWorld (world_in r.0 r.1.items)) }
    ensures refused { IfErr result (λ e.
        e ≢ Memory → meaning (table_view document.now) ≡ Err (number_of e)) }
{
    let source = Source::new(alloc, bytes, document)?;
    source.build_host_and_guests(alloc)
}

/// Reads a board file. Returns its host bridge and board at reset, with CONFIG_ADDRESS 0, and its
/// guests in file order. A file that fails checks is refused with the first of them: `NotToml`,
/// those of [`checks_before_masks`](crate::checks::checks_before_masks), `CellMasks`. Each check covers the whole file. Bytes
/// that aren't UTF-8 aren't TOML. Exhausted memory can be reported at any point.
pub fn read_board(alloc: Global, bytes: &[u8]) -> Result<(Host, Vec<GuestDecl>), BoardFault>
    ensures world { IfOk result (λ r.
        IsUtf8 bytes.now
        × (document_meaning (parse_document bytes.now) ≡ Ok (world_in r.0 r.1.items))) }
    ensures reset { IfOk result (λ r. IsAtReset r.0.state) }
    ensures lawful { IfOk result (λ r. IsLawfulWorld (world_in r.0 r.1.items)) }
    ensures refused { IfErr result (λ e.
        e ≢ Memory → IsUtf8 bytes.now →
        document_meaning (parse_document bytes.now) ≡ Err (number_of e)) }
    ensures not_text { IfErr result (λ e. e ≢ Memory → ¬ IsUtf8 bytes.now → e ≡ NotToml) }
{
    match toml::table_from_slice(alloc, bytes) {
        Ok(document) => read_document(alloc, bytes, &document),
        Err(e) if e.is_memory() => Err(BoardFault::Memory),
        Err(_) => Err(BoardFault::NotToml),
    }
}
