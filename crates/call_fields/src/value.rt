//! The values of fields.

ghost use Rattle.std.specs.Prelude.{◌≡◌, ◌≤◌, length};
ghost use Rattle.call_fields.specs.Values.{field_of, number_at, message_at, signed_at, name_at, procedure_at, window_at, send_at, thread_at, count_at, short_message_at, pixel_at, byte_at, source_at, cause_at, code_at};

use crate::form::Field;
use arrayvec::ArrayVec;
use user_model::Origin;
use win_num::{Cause, Code, Hwnd, SendId, Thread};

/// How many fields a call or an answer has at most.
pub const FIELD_LIMIT: usize = 9;

/// What stands in a field of a call or an answer.
#[derive(Clone, Copy, Debug, PartialEq, Eq)]
pub enum Value {
    /// A number of 64 bits.
    Number(u64),
    /// The number of a message, of 64 bits.
    Message(u64),
    /// A number of 64 bits with its sign.
    Signed(i64),
    /// A name, by its place in the script's list of names.
    Name(u32),
    /// A procedure, by its place in the script's list of procedures.
    Procedure(u32),
    /// A window of an answer, or 0.
    Window(Hwnd),
    /// The number of a send, or 0.
    Send(SendId),
    /// An actor, 0 to 15.
    Thread(Thread),
    /// The number of a post, or 0.
    Count(u32),
    /// The number of a message of an answer, of 32 bits.
    ShortMessage(u32),
    /// A place on the screen in pixels, of 32 bits with its sign.
    Pixel(i32),
    /// A number of 8 bits: which kind of region, or whether the background is to be erased.
    Byte(u8),
    /// Where a message came from.
    Source(Origin),
    /// How a send came to its answer.
    Cause(Cause),
    /// Why a call was refused.
    Code(Code),
}

impl Default for Value {
    fn default() -> Value {
        Value::Number(0)
    }
}

/// The values of a call or an answer, in the order of its fields. They take no memory.
pub type Values = ArrayVec<Value, 9>;

/// The kind of the field in which a value stands.
pub fn field_of(value: Value) -> Field
    ensures { result ≡ field_of value }
{
    match value {
        Value::Number(_) => Field::Number,
        Value::Message(_) => Field::Message,
        Value::Signed(_) => Field::Signed,
        Value::Name(_) => Field::Name,
        Value::Procedure(_) => Field::Procedure,
        Value::Window(_) => Field::Window,
        Value::Send(_) => Field::Send,
        Value::Thread(_) => Field::Thread,
        Value::Count(_) => Field::Count,
        Value::ShortMessage(_) => Field::ShortMessage,
        Value::Pixel(_) => Field::Pixel,
        Value::Byte(_) => Field::Byte,
        Value::Source(_) => Field::Source,
        Value::Cause(_) => Field::Cause,
        Value::Code(_) => Field::Code,
    }
}

/// These values.
pub fn values_of(list: &[Value]) -> Values
    requires { length list.now ≤ 9 }
    ensures { result.items ≡ list.now }
{
    let mut values = ArrayVec::new();
    let _ = values.try_extend_from_slice(list);
    values
}

/// The value at a place, from 0, where it is of this kind; else 0.
pub fn number_at(values: &[Value], place: usize) -> u64
    ensures { result ≡ number_at values.now place }
{
    match values.get(place) {
        Some(Value::Number(value)) => *value,
        _ => 0,
    }
}

/// The value at a place, from 0, where it is of this kind; else 0.
pub fn message_at(values: &[Value], place: usize) -> u64
    ensures { result ≡ message_at values.now place }
{
    match values.get(place) {
        Some(Value::Message(value)) => *value,
        _ => 0,
    }
}

/// The value at a place, from 0, where it is of this kind; else 0.
pub fn signed_at(values: &[Value], place: usize) -> i64
    ensures { result ≡ signed_at values.now place }
{
    match values.get(place) {
        Some(Value::Signed(value)) => *value,
        _ => 0,
    }
}

/// The value at a place, from 0, where it is of this kind; else 0.
pub fn name_at(values: &[Value], place: usize) -> u32
    ensures { result ≡ name_at values.now place }
{
    match values.get(place) {
        Some(Value::Name(value)) => *value,
        _ => 0,
    }
}

/// The value at a place, from 0, where it is of this kind; else 0.
pub fn procedure_at(values: &[Value], place: usize) -> u32
    ensures { result ≡ procedure_at values.now place }
{
    match values.get(place) {
        Some(Value::Procedure(value)) => *value,
        _ => 0,
    }
}

/// The value at a place, from 0, where it is of this kind; else Hwnd(0).
pub fn window_at(values: &[Value], place: usize) -> Hwnd
    ensures { result ≡ window_at values.now place }
{
    match values.get(place) {
        Some(Value::Window(value)) => *value,
        _ => Hwnd(0),
    }
}

/// The value at a place, from 0, where it is of this kind; else SendId(0).
pub fn send_at(values: &[Value], place: usize) -> SendId
    ensures { result ≡ send_at values.now place }
{
    match values.get(place) {
        Some(Value::Send(value)) => *value,
        _ => SendId(0),
    }
}

/// The value at a place, from 0, where it is of this kind; else Thread(0).
pub fn thread_at(values: &[Value], place: usize) -> Thread
    ensures { result ≡ thread_at values.now place }
{
    match values.get(place) {
        Some(Value::Thread(value)) => *value,
        _ => Thread(0),
    }
}

/// The value at a place, from 0, where it is of this kind; else 0.
pub fn count_at(values: &[Value], place: usize) -> u32
    ensures { result ≡ count_at values.now place }
{
    match values.get(place) {
        Some(Value::Count(value)) => *value,
        _ => 0,
    }
}

/// The value at a place, from 0, where it is of this kind; else 0.
pub fn short_message_at(values: &[Value], place: usize) -> u32
    ensures { result ≡ short_message_at values.now place }
{
    match values.get(place) {
        Some(Value::ShortMessage(value)) => *value,
        _ => 0,
    }
}

/// The value at a place, from 0, where it is of this kind; else 0.
pub fn pixel_at(values: &[Value], place: usize) -> i32
    ensures { result ≡ pixel_at values.now place }
{
    match values.get(place) {
        Some(Value::Pixel(value)) => *value,
        _ => 0,
    }
}

/// The value at a place, from 0, where it is of this kind; else 0.
pub fn byte_at(values: &[Value], place: usize) -> u8
    ensures { result ≡ byte_at values.now place }
{
    match values.get(place) {
        Some(Value::Byte(value)) => *value,
        _ => 0,
    }
}

/// The value at a place, from 0, where it is of this kind; else Origin::Posted.
pub fn source_at(values: &[Value], place: usize) -> Origin
    ensures { result ≡ source_at values.now place }
{
    match values.get(place) {
        Some(Value::Source(value)) => *value,
        _ => Origin::Posted,
    }
}

/// The value at a place, from 0, where it is of this kind; else Cause::Proc.
pub fn cause_at(values: &[Value], place: usize) -> Cause
    ensures { result ≡ cause_at values.now place }
{
    match values.get(place) {
        Some(Value::Cause(value)) => *value,
        _ => Cause::Proc,
    }
}

/// The value at a place, from 0, where it is of this kind; else Code::NotNow.
pub fn code_at(values: &[Value], place: usize) -> Code
    ensures { result ≡ code_at values.now place }
{
    match values.get(place) {
        Some(Value::Code(value)) => *value,
        _ => Code::NotNow,
    }
}
