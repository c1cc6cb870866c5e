//! Reading the documents that a request names.
ghost use Rattle.std.specs.Prelude.{IfOk, IfErr, IfSome, option_map};
ghost use Rattle.casebook_request.specs.Views.{sources_view};
ghost use Rattle.casebook_repairs.specs.Inputs.{AreInputs, IsDocument, IsDocumentIf};
ghost use Rattle.casebook_repairs.specs.Stops.{IsUnread, IsUnreadIf, StopsReading};
ghost use Rattle.casebook_repairs.specs.Views.{document_view, inputs_view};

use crate::document::Document;
use crate::documents::{Documents, ReadFault};
use crate::inputs::Inputs;
use crate::stop::Stop;
use casebook_request::Sources;
use std::alloc::Global;

/// Reads the document with a name.
pub fn read_document<'a, D: Documents>(
    alloc: Global,
    documents: &D,
    name: &'a str,
) -> Result<Document<'a>, Stop<'a>>
    ensures ok { IfOk result (λ document. IfSome (D.bytes_of documents.now) (λ at.
        IsDocument at name.entry.now (document_view document))) }
    ensures err { IfErr result (λ stop. IfSome (D.bytes_of documents.now) (λ at.
        IsUnread at name.entry.now stop)) }
{
    match documents.read(alloc, name) {
        Ok(bytes) => Ok(Document { name, bytes }),
        Err(ReadFault::NoMem) => Err(Stop::OutOfMemory),
        Err(ReadFault::Unreadable(hindrance)) => Err(Stop::ReadFailed(name, hindrance)),
    }
}

/// Reads a document, if one is named.
pub fn read_if_named<'a, D: Documents>(
    alloc: Global,
    documents: &D,
    name: Option<&'a str>,
) -> Result<Option<Document<'a>>, Stop<'a>>
    ensures ok { IfOk result (λ document. IfSome (D.bytes_of documents.now) (λ at.
        IsDocumentIf at (option_map (λ s. s.now) name.entry) (option_map document_view document))) }
    ensures err { IfErr result (λ stop. IfSome (D.bytes_of documents.now) (λ at.
        IsUnreadIf at (option_map (λ s. s.now) name.entry) stop)) }
{
    match name {
        Some(name) => Ok(Some(read_document(alloc, documents, name)?)),
        None => Ok(None),
    }
}

/// Reads the documents that a request needs.
pub fn read_inputs<'a, D: Documents>(
    alloc: Global,
    documents: &D,
    sources: Sources<'a>,
) -> Result<Inputs<'a>, Stop<'a>>
    ensures ok { IfOk result (λ inputs. IfSome (D.bytes_of documents.now) (λ at.
        AreInputs at (sources_view sources.entry) (inputs_view inputs))) }
    ensures err { IfErr result (λ stop. IfSome (D.bytes_of documents.now) (λ at.
        StopsReading at (sources_view sources.entry) stop)) }
{
    let log = read_document(alloc, documents, sources.log)?;
    let list = read_if_named(alloc, documents, sources.list)?;
    let about = read_if_named(alloc, documents, sources.about)?;
    Ok(Inputs { log, list, about })
}
