//! The text that tells of the runs that were made.
#![tactic(auto, using(user_io::proofs::Texts::two))]

ghost use Rattle.std.specs.Prelude.{◌≡◌, OnOk};
ghost use Rattle.std.specs.List.{flat_map};
ghost use Rattle.user_io.specs.Text.{Adds, operand};
ghost use Rattle.log_text.specs.Summaries.{count_line};
ghost use Rattle.run_explorer.specs.Texts.{order_line, found_lines, marked_lines, last_line, report_text};

use crate::report::{Found, Order, Report};
use std::alloc::AllocError;
use user_io::text::{put_operand, put_text};

/// Adds a word and a number, on a line.
fn put_count(out: &mut Vec<u8>, word: &[u8], number: u64) -> Result<(), AllocError>
    ensures { OnOk result (Adds out.old.items out.new.items (count_line word.now number)) }
{
    put_text(out, word)?;
    put_operand(out, number)?;
    put_text(out, b"\n")?;
    Ok(())
}

/// Adds numbers, each with a blank before it.
fn put_numbers(out: &mut Vec<u8>, numbers: &[u8]) -> Result<(), AllocError>
    ensures { OnOk result (Adds out.old.items out.new.items (flat_map operand numbers.now)) }
{
    for number in numbers {
        put_operand(out, u64::from(*number))?;
    }
    Ok(())
}

/// Adds the line of an order list, where there is one.
fn put_order(out: &mut Vec<u8>, order: &Order) -> Result<(), AllocError>
    ensures { OnOk result (Adds out.old.items out.new.items (order_line order.now)) }
{
    match order {
        Order::Nowhere => Ok(()),
        Order::Movers(numbers) => {
            put_text(out, b"order")?;
            put_numbers(out, numbers)?;
            put_text(out, b"\n")
        }
        Order::Long => put_text(out, b"order long\n"),
    }
}

/// Adds how many runs there were of a kind, and who moved in the first one.
fn put_found(out: &mut Vec<u8>, word: &[u8], found: &Found) -> Result<(), AllocError>
    ensures { OnOk result (Adds out.old.items out.new.items (found_lines word.now found.now)) }
{
    put_count(out, word, u64::from(found.count))?;
    put_order(out, &found.order)?;
    Ok(())
}

/// Adds how many runs are marked, and who moved in the first one, where a mark was asked for.
fn put_marked(out: &mut Vec<u8>, asks: bool, found: &Found) -> Result<(), AllocError>
    ensures { OnOk result (Adds out.old.items out.new.items (marked_lines asks found.now)) }
{
    if asks {
        put_found(out, b"marked", found)
    } else {
        Ok(())
    }
}

/// Adds the last line.
fn put_last(out: &mut Vec<u8>, is_all: bool) -> Result<(), AllocError>
    ensures { OnOk result (Adds out.old.items out.new.items (last_line is_all)) }
{
    if is_all {
        put_text(out, b"all\n")
    } else {
        put_text(out, b"more\n")
    }
}

/// Adds the lines of a report. `AllocError` comes only for want of memory.
#[tactic(auto, using(user_io::proofs::Texts::two), unfolding(crate::specs::Texts::report_text))]
pub fn put_report(out: &mut Vec<u8>, report: &Report) -> Result<(), AllocError>
    ensures { OnOk result (Adds out.old.items out.new.items (report_text report.now)) }
{
    put_count(out, b"explored", u64::from(report.runs))?;
    put_count(out, b"entries", report.entries)?;
    put_count(out, b"done", u64::from(report.done))?;
    put_found(out, b"stuck", &report.stuck)?;
    put_found(out, b"spent", &report.spent)?;
    put_marked(out, report.asks_marked, &report.marked)?;
    put_last(out, report.is_all)?;
    Ok(())
}
