// Lends slices that are exactly full, one short and longer, and prints for each what the call answers and what the whole
// slice holds then. Text slices hold `#` beforehand, token slices 9.
#![tactic(auto)]

mod call;
mod pass;

use call::{Label, One, Three, print_call};
use chart_list::charts::fill_chart;
use chart_texts::single::{generate_breakdown, stream_breakdown};
use chart_texts::three::{generate_breakdowns, stream_breakdowns};
use counts_line::board_counts;
use label::label;
use measures::chart::MOST_MEASURES;
use number::push_u64;
use pass::print_passes;
use rules::{BreakdownMode, RunDensity, StreamBreakdownLevel};
use run_symbol::format_run_symbol;
use std::io;

fn print_numbers(rt: &impl Print) -> io::Result<()> {
    for n in [0, 9, 10, u64::MAX] {
        print_call(rt, format_args!("push_u64 {n}"), |text| {
            One(push_u64(text, n, 0))
        })?;
    }
    Ok(())
}

// The last two widths are refused with 20.
fn print_padded(rt: &impl Print) -> io::Result<()> {
    for n in [0, 9, 10, 1234567, u64::MAX] {
        for width in [1, 2, 7, 8, 19, 20, 21, u32::MAX] {
            print_call(rt, format_args!("push_u64 {n} width {width}"), |text| {
                One(push_u64(text, n, width))
            })?;
        }
    }
    Ok(())
}

fn print_symbol(rt: &impl Print, class: RunDensity, length: u64, star: bool) -> io::Result<()> {
    let mark = if star { "*" } else { "" };
    let name = format_args!("format_run_symbol {class:?} {length}{mark}");
    print_call(rt, name, |text| {
        One(format_run_symbol(class, length, star, text))
    })
}

fn print_symbols(rt: &impl Print) -> io::Result<()> {
    print_symbol(rt, RunDensity::Run16, 7, false)?;
    print_symbol(rt, RunDensity::Run16, 7, true)?;
    print_symbol(rt, RunDensity::Run20, 0, false)?;
    print_symbol(rt, RunDensity::Run24, 12, true)?;
    print_symbol(rt, RunDensity::Run32, 100, true)?;
    print_symbol(rt, RunDensity::Break, 7, false)
}

fn print_texts(rt: &impl Print, m: &[u32]) -> io::Result<()> {
    for (mode, name) in [
        (BreakdownMode::Detailed, "detailed"),
        (BreakdownMode::Partial, "partial"),
        (BreakdownMode::Simplified, "simplified"),
    ] {
        print_call(rt, format_args!("generate_breakdown {name}"), |text| {
            One(generate_breakdown(m, mode, text))
        })?;
    }
    for (level, name) in [
        (StreamBreakdownLevel::Detailed, "detailed"),
        (StreamBreakdownLevel::Partial, "partial"),
        (StreamBreakdownLevel::Simple, "simple"),
        (StreamBreakdownLevel::Total, "total"),
    ] {
        print_call(rt, format_args!("stream_breakdown {name}"), |text| {
            One(stream_breakdown(m, level, text))
        })?;
    }
    print_call(rt, "generate_breakdowns", |text| {
        Three(generate_breakdowns(m, text))
    })?;
    print_call(rt, "stream_breakdowns", |text| {
        Three(stream_breakdowns(m, text))
    })
}

fn print_labels(rt: &impl Print, m: &[u32]) -> io::Result<()> {
    for width in [0, 2, 4, 5, 8, 100] {
        print_call(rt, format_args!("label {width}"), |text| {
            Label(label(m, width, text))
        })?;
    }
    Ok(())
}

// The lines of a chart, after the line of a list that says it.
fn print_measures(rt: &impl Print, line: &str, m: &[u32]) -> io::Result<()> {
    println!(rt; "chart {line}")?;
    print_texts(rt, m)?;
    print_labels(rt, m)?;
    print_call(rt, "board_counts", |text| One(board_counts(m, text)))?;
    print_passes(rt, m)
}

fn print_charts(rt: &impl Print) -> io::Result<()> {
    let mut space = [0u32; 1000];
    for line in [
        "16 0 16",
        "32 0 0 16",
        "16 16 0 20 20 0 0 0 16",
        "16 0 0 16 0 0 16 0 0 16 0 0 16",
        "0 15",
        // With a lead-in and a tail.
        "0 0 0 16 0 20 0 0",
        "15x12 32 0",
        "16x1000",
    ] {
        let count = fill_chart(line.as_bytes(), &mut space);
        print_measures(rt, line, &space[..count])?;
    }
    Ok(())
}

// One measure more than the domain has. The chart is a constant, since to fill it would take longer than all else here.
fn print_too_many(rt: &impl Print, m: &[u32; MOST_MEASURES + 1]) -> io::Result<()> {
    print_measures(rt, "16x1048577", m)
}

fn main(rt: HostRuntime) -> io::Result<()> {
    print_numbers(&rt)?;
    print_padded(&rt)?;
    print_symbols(&rt)?;
    print_charts(&rt)?;
    print_too_many(&rt, &[16; MOST_MEASURES + 1])
}
