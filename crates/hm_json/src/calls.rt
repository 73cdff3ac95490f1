//! Invocations whose object has a type, an id, a target and arguments and nothing else, read member by member: most frames
//! are such. Whatever is another, or has a fault, is left to the reading of all frames.
ghost use Rattle.std.specs.Prelude.{◌≡◌, ◌∷◌, ◌++◌, [], ℕ, pos, List, Option, Ok, Some, None, IfOk, IfSome, IsTrue, option_map};
ghost use Rattle.hv_value.specs.Tree.{Pair, map_of, text as text_tree, list, trees, int as int_tree};
ghost use Rattle.hv_value.specs.View.{tree};
ghost use Rattle.hv_json.specs.Reading.{reading};
ghost use Rattle.hm_message.specs.Message.{Fits};
ghost use Rattle.hm_message.specs.Name.{field_name};
ghost use Rattle.hm_message.specs.declared.message.Field.TheVariants.{InvocationId};
ghost use Rattle.hm_json.specs.Calls.{AreOf};
ghost use Rattle.hm_json.specs.Properties.{optional, unless_null, some_text};
ghost use Rattle.hm_json.specs.Says.{Says, IsMessage};

use hm_message::{Field, Headers, Message, values_are_trees};
use hv_json::{Fallback, next_member, open_object};
use hv_value::{Items, Text, Texts, Value, last_pair_counts};
use json::Scratch;
use std::alloc::{AllocError, Global};

/// The properties of a call, of which a repeated one counts last.
#[derive(Drop)]
pub(crate) struct Properties {
    kind: Option<Value>,
    id: Option<Value>,
    target: Option<Value>,
    arguments: Option<Value>,
}

impl Properties {
    fn none() -> Properties
        ensures { AreOf result [] }
    {
        Properties {
            kind: None,
            id: None,
            target: None,
            arguments: None,
        }
    }

    /// Takes a member, unless it is of another name.
    fn take(&mut self, name: &str, value: Value) -> bool
        ensures { IsTrue result → (before : List Pair) → AreOf self.old before → AreOf self.new (before ++ (name.now, tree value) ∷ []) }
    {
        match field_of(name.as_bytes()) {
            Some(Field::Kind) => self.kind = Some(value),
            Some(Field::InvocationId) => self.id = Some(value),
            Some(Field::Target) => self.target = Some(value),
            Some(Field::Arguments) => self.arguments = Some(value),
            _ => return false,
        }
        true
    }
}

/// The field of a call that has this name. Byte by byte, since that is shortest for names as short as these.
fn field_of(name: &[u8]) -> Option<Field>
    ensures { IfSome result (λ field. name.now ≡ field_name field) }
{
    match name {
        b"type" => Some(Field::Kind),
        b"invocationId" => Some(Field::InvocationId),
        b"target" => Some(Field::Target),
        b"arguments" => Some(Field::Arguments),
        _ => None,
    }
}

/// The properties of the frame's object, if it has no others.
fn read_properties(
    alloc: Global,
    scratch: &mut Scratch,
    frame: &[u8],
) -> Result<Properties, Fallback>
    ensures { IfOk result (λ p. (members : List Pair) × AreOf p members × (reading frame.now ≡ Ok (map_of members))) }
{
    let mut reader = open_object(scratch, frame)?;
    let mut properties = Properties::none();
    'members: loop {
        let Some((name, value)) = next_member(alloc, &mut reader)? else {
            return Ok(properties);
        };
        if !properties.take(name, value) {
            return Err(Fallback::Other);
        }
    }
}

fn number_of(value: &Option<Value>) -> Option<i128>
    ensures { IfSome result (λ n. option_map tree value.now ≡ Some (int_tree n)) }
{
    match value {
        Some(Value::Int(n)) => Some(n.get()),
        _ => None,
    }
}

fn text_of(value: Option<Value>) -> Option<Text>
    ensures { IfSome result (λ s. option_map tree value ≡ Some (text_tree s)) }
{
    match value {
        Some(Value::Text(text)) => Some(text),
        _ => None,
    }
}

/// The id of an invocation, of which a null counts as absent, or `None` if it is of another kind.
fn id_of(value: Option<Value>) -> Option<Option<Text>>
    ensures { IfSome result (λ id. optional {A = Option (List ℕ)} None InvocationId some_text (unless_null (option_map tree value)) ≡ Ok id) }
{
    match value {
        Some(Value::Text(text)) => Some(Some(text)),
        Some(Value::Null) => Some(None),
        None => Some(None),
        _ => None,
    }
}

fn items_of(value: Option<Value>) -> Option<Items>
    ensures { IfSome result (λ items. option_map tree value ≡ Some (list (trees items))) }
{
    match value {
        Some(Value::List(items)) => Some(items),
        _ => None,
    }
}

fn invocation(alloc: Global, properties: Properties) -> Option<Message>
    requires { option_map tree properties.kind ≡ Some (int_tree (pos 1)) }
    ensures { IfSome result (λ m. ((members : List Pair) → AreOf properties members → IsMessage (map_of members) m) × Fits m) }
{
    last_pair_counts();
    values_are_trees();
    let id = id_of(properties.id)?;
    let target = text_of(properties.target)?;
    let arguments = items_of(properties.arguments)?;
    let message = Message::Invocation {
        headers: Headers::none(alloc),
        id,
        target,
        arguments,
        streams: Texts::of(Vec::new(alloc)),
    };
    if message.fits() { Some(message) } else { None }
}

fn stream_invocation(alloc: Global, properties: Properties) -> Option<Message>
    requires { option_map tree properties.kind ≡ Some (int_tree (pos 4)) }
    ensures { IfSome result (λ m. ((members : List Pair) → AreOf properties members → IsMessage (map_of members) m) × Fits m) }
{
    last_pair_counts();
    values_are_trees();
    let id = text_of(properties.id)?;
    let target = text_of(properties.target)?;
    let arguments = items_of(properties.arguments)?;
    let message = Message::StreamInvocation {
        headers: Headers::none(alloc),
        id,
        target,
        arguments,
        streams: Texts::of(Vec::new(alloc)),
    };
    if message.fits() { Some(message) } else { None }
}

/// The invocation that these properties are.
fn call_of(alloc: Global, properties: Properties) -> Option<Message>
    ensures { IfSome result (λ m. ((members : List Pair) → AreOf properties members → IsMessage (map_of members) m) × Fits m) }
{
    let kind = number_of(&properties.kind)?;
    if kind == 1 {
        return invocation(alloc, properties);
    }
    if kind == 4 {
        return stream_invocation(alloc, properties);
    }
    None
}

/// Whether it may be worth while to read the frame as a call: a type that stands first is that of one, or arguments stand first.
pub(crate) fn begins_as_call(frame: &[u8]) -> bool {
    frame.len() > 8 && (frame[8] == b'1' || frame[8] == b'4' || frame[8] == b'n')
}

/// The invocation that the frame says, or `None` if it has to be read otherwise.
pub(crate) fn call(
    alloc: Global,
    scratch: &mut Scratch,
    frame: &[u8],
) -> Result<Option<Message>, AllocError>
    ensures { IfOk result (λ found. IfSome found (λ m. Says frame.now m × Fits m)) }
{
    match read_properties(alloc, scratch, frame) {
        Ok(properties) => Ok(call_of(alloc, properties)),
        Err(Fallback::NoMemory) => Err(AllocError),
        Err(Fallback::Other) => Ok(None),
    }
}
