//! Each public call, at statements of each kind of part.

use crate::facts::hold;
use call_table::{CallName, ClockCall, DrawingCall, InputCall, LookupCall, WindowCall};
use script_tree::{CallStatement, Comparison, CompoundStatement, Letter, Operand, Operator};
use statement_table::*;

#[test]
fn statements_again(rt: HostRuntime) {
    let one = Operand::Number(1);
    let h = Operand::Number(2);
    for (call, places) in [
        (CallStatement::Peek(one, h, one, h), 4),
        (CallStatement::SendCallback(one, h, one, h, 5, one), 6),
        (CallStatement::Reply(h), 1),
        (CallStatement::Register(1, 2, h), 3),
        (CallStatement::WindowAt(h, one), 2),
        (CallStatement::GetFocus, 0),
        (CallStatement::Attach(one, h), 2),
        (CallStatement::Mouse(one, h, one), 3),
        (CallStatement::Key(one, h), 2),
        (CallStatement::KeyState(h), 1),
        (CallStatement::EndDialog(one, h), 2),
        (CallStatement::Invalidate(one, h, one, h, one, h), 6),
        (CallStatement::Validate(one, h, one, h, one), 5),
        (CallStatement::UpdateRect(h), 1),
        (CallStatement::EndPaint(h), 1),
        (CallStatement::Fill(one, h, one, h, one, h), 6),
        (CallStatement::Snap, 0),
        (CallStatement::Dispatch, 0),
        (CallStatement::Translate, 0),
        (CallStatement::Status(h), 1),
        (CallStatement::Yield, 0),
    ] {
        let split = split_statement(call);
        assert_eq!(rt; split.parts.len(), places);
        assert_eq!(rt; statement_places(split.name).len(), places);
        let again = statement_of_parts(split.name, &split.parts);
        assert_eq!(rt; again.is_some(), true);
        assert_eq!(rt; statement_name(call), split.name);
        assert_eq!(rt; statement_parts(call).len(), places);
    }
}

#[test]
fn compounds_again(rt: HostRuntime) {
    let a = Operand::Number(1);
    let b = Operand::Number(2);
    for (compound, places) in [
        (CompoundStatement::ShowWindow(a, b), 2),
        (CompoundStatement::EnableWindow(b, a), 2),
        (CompoundStatement::SetWindowPos(a, b, a, b, b, a, b), 7),
        (CompoundStatement::SetFocus(b), 1),
        (CompoundStatement::SetActive(a), 1),
        (CompoundStatement::SetCapture(b), 1),
        (CompoundStatement::ReleaseCapture, 0),
        (CompoundStatement::BeginPaint(a), 1),
        (CompoundStatement::UpdateWindow(b), 1),
        (CompoundStatement::PostAll(a, b, b), 3),
        (CompoundStatement::NotifyAll(b, a, a), 3),
        (CompoundStatement::Pump, 0),
        (CompoundStatement::Dialog(b), 1),
    ] {
        let name = compound_name(compound);
        let parts = compound_parts(compound);
        assert_eq!(rt; parts.len(), places);
        assert_eq!(rt; compound_places(name).len(), places);
        assert!(rt; compound_of_parts(name, &parts) == compound);
        assert!(rt; !compound_word(name).is_empty());
    }
    assert!(rt; compound_word(CompoundName::PostAll) == b"post_all".as_slice());
}

#[test]
fn calls_of_no_statement(rt: HostRuntime) {
    let one = [Part::Operand(Operand::Number(1))];
    let doom = CallName::Window(WindowCall::Doom);
    for call in [
        doom,
        CallName::Clock(ClockCall::Tick),
        CallName::Drawing(DrawingCall::BeginPaint),
        CallName::Drawing(DrawingCall::Erase),
        CallName::Input(InputCall::SetFocus),
        CallName::Input(InputCall::BeginDialog),
        CallName::Input(InputCall::DialogState),
    ] {
        assert!(rt; statement_of_parts(call, &one).is_none());
    }
    let parent = CallName::Lookup(LookupCall::Parent);
    assert!(rt; statement_of_parts(parent, &one).is_some());
    assert!(rt; field_places(doom).len() == 1);
}

fn parts() -> Parts {
    parts_of(&[
        Part::Letter(Letter::B),
        Part::Operand(Operand::Number(3)),
        Part::Operator(Operator::Plus),
        Part::Comparison(Comparison::Equal),
        Part::Name(4),
        Part::Beginning(5),
        Part::Procedure(6),
    ])
}

#[test]
fn parts_at_places(rt: HostRuntime) {
    let parts = parts();
    let facts = [
        matches!(letter_in(&parts, 0), Letter::B),
        matches!(operand_in(&parts, 1), Operand::Number(3)),
        matches!(operator_in(&parts, 2), Operator::Plus),
        matches!(comparison_in(&parts, 3), Comparison::Equal),
        name_in(&parts, 4) == 4,
        beginning_in(&parts, 5) == 5,
        procedure_in(&parts, 6) == 6,
        name_in(&parts, 9) == 0,
    ];
    hold(&rt, &facts);
}
