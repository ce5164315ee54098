// Prints what each line of the input says as a report line, or the number, field and offset of the first rule that it breaks.
#![tactic(auto)]

use line::{ReadFault, Report, read_line};
use std::io;
use std::io::{Read, Write};
use text::{Action, Kind, Names, Side};

// Words that this program alone prints, as bytes among the bytes of a line.
fn kind_word(kind: Kind) -> &'static [u8] {
    match kind {
        Kind::Order => b"order ",
        Kind::Trade => b"trade ",
    }
}

fn side_word(side: Side) -> &'static [u8] {
    match side {
        Side::Buy => b" buys ",
        Side::Sell => b" sells ",
    }
}

fn action_word(action: Action) -> &'static [u8] {
    match action {
        Action::New => b"new",
        Action::Modify => b"modify",
        Action::Error => b"error",
        Action::Cancel => b"cancel",
    }
}

fn write_names(out: &mut impl Write, names: Names) -> io::Result<()> {
    for name in names {
        out.write_all(b" [")?;
        out.write_all(name)?;
        out.write_all(b"]")?;
    }
    Ok(())
}

fn write_subject(out: &mut impl Write, report: &Report) -> io::Result<()> {
    out.write_all(kind_word(report.kind))?;
    out.write_all(report.id)?;
    out.write_all(b" of ")?;
    out.write_all(report.contract)?;
    out.write_all(b" at ")?;
    out.write_all(report.venue)?;
    out.write_all(b", ")?;
    out.write_all(report.participant)?;
    out.write_all(side_word(report.side))?;
    out.write_all(action_word(report.action))
}

fn write_report(rt: &HostRuntime, report: &Report) -> io::Result<()> {
    write_subject(&mut rt.stdout(), report)?;
    let time = report.time;
    let quantity = report.quantity;
    match report.price {
        Some(price) => print!(rt; " {time} {quantity} {price}")?,
        None => print!(rt; " {time} {quantity} none")?,
    }
    write_names(&mut rt.stdout(), report.names)?;
    println!(rt; "")
}

fn write_fault(rt: &HostRuntime, fault: ReadFault) -> io::Result<()> {
    let number = fault.number();
    let field = fault.field();
    let offset = fault.offset();
    println!(rt; "refused {number}, field {field}, offset {offset}")
}

fn main(rt: HostRuntime) -> io::Result<()> {
    let mut input = Vec::new(rt.alloc());
    rt.stdin().read_to_end(&mut input)?;
    for line in input.split_inclusive(|b| *b == b'\n') {
        match read_line(line.strip_suffix(b"\n").unwrap_or(line)) {
            Ok(report) => write_report(&rt, &report)?,
            Err(fault) => write_fault(&rt, fault)?,
        }
    }
    Ok(())
}
