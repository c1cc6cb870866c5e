//! Reads the fields of notes: paths, nodes, listings, users and variables.
ghost use Rattle.std.specs.Prelude.{◌≡◌, IfOk, map, true};
ghost use Rattle.retro_value.specs.Borrowed.{value_data};
ghost use Rattle.retro_json.specs.ReadsAs.{seen};
ghost use Rattle.retro_json.specs.Shape.{text_in};
ghost use Rattle.retro_json.specs.PathText.{is_written_name};
ghost use Rattle.retro_json.specs.Worst.{every};
ghost use Rattle.retro_json.specs.LogFields.{file_field, hex_field, kind_field, listing_field};
ghost use Rattle.retro_json.specs.LogFields.{name_field, node_cells, node_field, or_null};
ghost use Rattle.retro_json.specs.LogFields.{path_field};
ghost use Rattle.retro_json.specs.LogFields.{permit_field, tagged_node, user_cells, user_field};
ghost use Rattle.retro_json.specs.LogFields.{value_field, var_field, written_name};
ghost use Rattle.retro_json.specs.declared.fault.Part.TheVariants.{Lines};

use crate::accepted;
use crate::fault::{Part, Refusal};
use crate::reading::hex_text::bytes_in;
use crate::reading::path::{is_written_name, path_in};
use crate::reading::shape::{cells, text, u32_in};
use crate::reading::worst::{OrRefusal, with_item};
use json::Value;
use retro_tree::{
    Bytes, FILE_LIMIT, Kind, Listing, Name, NoMem, Node, Path, Permit, Text, User, VALUE_LIMIT,
    VarName,
};
use retro_value::is_null;
use std::alloc::Global;

/// Returns `None` if the value is `null`, whatever `field` is, and otherwise what `field` holds.
pub fn or_null<T: Drop>(value: &Value<'_>, field: OrRefusal<T>) -> OrRefusal<Option<T>>
    ensures { result ≡ or_null (λ _. field) (value_data value.now) }
{
    if is_null(value) {
        return Ok(None);
    }
    Ok(Some(field?))
}

/// Reads a text of any length.
pub fn text_field(alloc: Global, value: &Value<'_>) -> Result<OrRefusal<Text>, NoMem>
    ensures { IfOk result (λ text. text ≡ text_in Lines (value_data value.now)) }
{
    let text = accepted!(text(Part::Lines, value));
    Ok(Ok(Text::of(String::from_str(alloc, text)?)))
}

/// Reads bytes from a text of hexadecimal digits of either case.
pub fn hex_field(alloc: Global, value: &Value<'_>) -> Result<OrRefusal<Bytes>, NoMem>
    ensures { IfOk result (λ bytes. bytes ≡ hex_field (value_data value.now)) }
{
    let text = accepted!(text(Part::Lines, value));
    Ok(bytes_in(alloc, text)?.ok_or(Refusal::BadHex))
}

/// Reads a path.
pub fn path_field(alloc: Global, value: &Value<'_>) -> Result<OrRefusal<Path>, NoMem>
    ensures { IfOk result (λ path. path ≡ path_field (value_data value.now)) }
{
    path_in(alloc, Part::Lines, value)
}

/// Returns the text of a value if it may be written as a name in a path.
fn written_name<'a>(value: &Value<'a>) -> OrRefusal<&'a str>
    ensures value { seen (λ name. name.now) result ≡ written_name (value_data value.now) }
    ensures written { IfOk result (λ name. is_written_name name.now ≡ true) }
{
    let name = text(Part::Lines, value)?;
    if is_written_name(name) {
        Ok(name)
    } else {
        Err(Refusal::WrongShape(Part::Lines))
    }
}

/// Reads a name of a listing.
#[tactic(auto, using(crate::proofs::Names::name_fits))]
fn name_field(alloc: Global, value: &Value<'_>) -> Result<OrRefusal<Name>, NoMem>
    ensures { IfOk result (λ name. name ≡ name_field (value_data value.now)) }
{
    let name = accepted!(written_name(value));
    Ok(Name::of(String::from_str(alloc, name)?).ok_or(Refusal::OverLimit))
}

/// Reads names of a listing, or returns their worst refusal.
fn read_names(alloc: Global, items: &[Value<'_>]) -> Result<OrRefusal<Vec<Name>>, NoMem>
    ensures { IfOk result (λ names. seen (λ v. v.items) names
        ≡ every name_field (map value_data items.now)) }
{
    let mut names = Ok(Vec::new(alloc));
    for item in items {
        let name = name_field(alloc, item)?;
        names = with_item(names, name)?;
    }
    Ok(names)
}

/// Reads `[name,..]`: the names in a directory, in any order.
#[tactic(auto, unfolding(crate::specs::LogFields::listing_field))]
pub fn listing_field(alloc: Global, value: &Value<'_>) -> Result<OrRefusal<Listing>, NoMem>
    ensures { IfOk result (λ names. names ≡ listing_field (value_data value.now)) }
{
    let items = accepted!(cells(Part::Lines, value));
    let names = accepted!(read_names(alloc, items)?);
    Ok(Ok(Listing::of(names)))
}

/// Reads the kind of a node: `"missing"`, `"dir"` or `"file"`.
#[tactic(auto, unfolding(crate::specs::LogFields::kind_field))]
pub fn kind_field(value: &Value<'_>) -> OrRefusal<Kind>
    ensures { result ≡ kind_field (value_data value.now) }
{
    match text(Part::Lines, value)? {
        "missing" => Ok(Kind::Missing),
        "dir" => Ok(Kind::Dir),
        "file" => Ok(Kind::File),
        _ => Err(Refusal::WrongShape(Part::Lines)),
    }
}

/// Reads the answer to a query whether bytes can be written: `"yes"`, or why they can't.
#[tactic(auto, unfolding(crate::specs::LogFields::permit_field))]
pub fn permit_field(value: &Value<'_>) -> OrRefusal<Permit>
    ensures { result ≡ permit_field (value_data value.now) }
{
    match text(Part::Lines, value)? {
        "yes" => Ok(Permit::Yes),
        "noparent" => Ok(Permit::NoParent),
        "notdir" => Ok(Permit::NotDir),
        "isdir" => Ok(Permit::IsDir),
        "toolarge" => Ok(Permit::TooLarge),
        _ => Err(Refusal::WrongShape(Part::Lines)),
    }
}

/// Reads a file from its bytes in hexadecimal digits. Refuses a file over `FILE_LIMIT`.
fn file_field(alloc: Global, value: &Value<'_>) -> Result<OrRefusal<Node>, NoMem>
    ensures { IfOk result (λ node. node ≡ file_field (value_data value.now)) }
{
    let bytes = accepted!(hex_field(alloc, value)?);
    if bytes.len() as u64 > FILE_LIMIT {
        return Ok(Err(Refusal::OverLimit));
    }
    Ok(Ok(Node::File(bytes)))
}

/// Reads the node `["d"]` or `["f","hex"]`. `rest` is what follows the tag.
fn tagged_node(alloc: Global, tag: &str, rest: &[Value<'_>]) -> Result<OrRefusal<Node>, NoMem>
    ensures { IfOk result (λ node. node ≡ tagged_node tag.now (map value_data rest.now)) }
{
    match rest {
        [] if tag == "d" => Ok(Ok(Node::Dir)),
        [hex] if tag == "f" => file_field(alloc, hex),
        _ => Ok(Err(Refusal::WrongShape(Part::Lines))),
    }
}

/// Reads a node from the items of its array.
fn node_of_cells(alloc: Global, cells: &[Value<'_>]) -> Result<OrRefusal<Node>, NoMem>
    ensures { IfOk result (λ node. node ≡ node_cells (map value_data cells.now)) }
{
    let [tag, rest @ ..] = cells else {
        return Ok(Ok(Node::Missing));
    };
    let tag = accepted!(text(Part::Lines, tag));
    tagged_node(alloc, tag, rest)
}

/// Reads a node: `[]` for a missing one, `["d"]` for a directory, `["f","hex"]` for a file.
#[tactic(auto, unfolding(crate::specs::LogFields::node_field))]
pub fn node_field(alloc: Global, value: &Value<'_>) -> Result<OrRefusal<Node>, NoMem>
    ensures { IfOk result (λ node. node ≡ node_field (value_data value.now)) }
{
    node_of_cells(alloc, accepted!(cells(Part::Lines, value)))
}

/// Returns the number of a user and the text of the home directory, from the items of the array.
fn user_parts<'a>(cells: &[Value<'a>]) -> OrRefusal<(u32, &'a str)>
    ensures { user_cells (map value_data cells.now)
        ≡ seen (λ parts. record { number = parts.0; home = parts.1.now }) result }
{
    match cells {
        [number, home] => {
            let number = u32_in(Part::Lines, number)?;
            Ok((number, text(Part::Lines, home)?))
        }
        _ => Err(Refusal::WrongShape(Part::Lines)),
    }
}

/// Reads what the password file says of a user: `[number,home]`.
#[tactic(auto, unfolding(crate::specs::LogFields::user_field))]
pub fn user_field(alloc: Global, value: &Value<'_>) -> Result<OrRefusal<User>, NoMem>
    ensures { IfOk result (λ user. user ≡ user_field (value_data value.now)) }
{
    let cells = accepted!(cells(Part::Lines, value));
    let (number, home) = accepted!(user_parts(cells));
    let home = Text::of(String::from_str(alloc, home)?);
    Ok(Ok(User { number, home }))
}

/// Reads the name of a variable that a line may assign.
pub fn var_field(alloc: Global, value: &Value<'_>) -> Result<OrRefusal<VarName>, NoMem>
    ensures { IfOk result (λ name. name ≡ var_field (value_data value.now)) }
{
    let text = accepted!(text(Part::Lines, value));
    Ok(VarName::of(alloc, text)?.ok_or(Refusal::WrongShape(Part::Lines)))
}

/// Reads the value of a variable. Refuses a value over `VALUE_LIMIT`.
pub fn value_field(alloc: Global, value: &Value<'_>) -> Result<OrRefusal<Text>, NoMem>
    ensures { IfOk result (λ text. text ≡ value_field (value_data value.now)) }
{
    let text = accepted!(text(Part::Lines, value));
    if text.len() > VALUE_LIMIT {
        return Ok(Err(Refusal::OverLimit));
    }
    Ok(Ok(Text::of(String::from_str(alloc, text)?)))
}
