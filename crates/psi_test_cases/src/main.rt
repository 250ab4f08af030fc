//! The program `psi_test_cases`: makes each call that its case files describe, and reports which ones
//! differ.
//!
//! Its arguments are the paths of case files; `reader` says how these are written. A call is made
//! through `psi_run::run` over a shelf and two sinks in memory, and agrees with its case where it
//! ends with the status that the case wants and the sinks hold the texts that it wants, byte by
//! byte. The name of each case that differs is printed, a line for each, and then `N cases agree`.
//!
//! An argument that ends with `.names` is a file of names, one a line: the cases of these names in the files that
//! follow are made again under faults, as `faults` says. Where one of these calls differs, `NAME under N faults` is
//! printed, and at the end `N calls under faults agree`.
//!
//! The case files lie in `data/`. What their cases want never comes from the program itself: `data/PROVENANCE` says
//! where it comes from.
//!
//! It ends with 0 where all agree, with 1 where a case differs, and with 2 where a case file can't
//! be read or an allocation fails, which a line on standard error reports.
#![tactic(auto)]

mod case;
mod faults;
mod reader;

use crate::case::Counts;
use crate::faults::try_faults;
use crate::reader::Reader;
use anyhow::Context;
use std::alloc::Global;
use std::process::ExitCode;
use std::rt::{Env, Files};
use std::{env, fs};

// Whether a line of the names is this name.
fn is_named(names: &[u8], name: &str) -> bool {
    names
        .split(|byte| *byte == b'\n')
        .any(|line| line == name.as_bytes())
}

// Makes the calls of a case file, and prints the name of each that differs; those that are named are made under faults
// too, and counted apart.
fn try_file(
    rt: &(impl Print + Alloc<A = Global>),
    bytes: &[u8],
    names: &[u8],
    counts: &mut Counts,
    under_faults: &mut Counts,
) -> anyhow::Result<()> {
    let mut reader = Reader::new(rt.alloc());
    for (place, line) in bytes.split(|byte| *byte == b'\n').enumerate() {
        let number = place.saturating_add(1);
        let ended = reader.take_line(line);
        let Some(case) = ended.context(format_args!("line {number}"))? else {
            continue;
        };
        let agrees = case.agrees(rt.alloc())?;
        let name = case.name.clone()?;
        if !agrees {
            println!(rt; "{name}")?;
        }
        counts.count(agrees);
        if is_named(names, name.as_str()) {
            let tried = try_faults(rt.alloc(), case)?;
            if tried.differing != 0 {
                println!(rt; "{name} under {} faults", tried.differing)?;
            }
            under_faults.add(tried);
        }
    }
    reader.finish()
}

// Makes the calls of all case files that the arguments name, prints how many agree, and returns whether none differs.
fn try_files(rt: &(impl Env + Files + Print + Alloc<A = Global>)) -> anyhow::Result<bool> {
    let mut counts = Counts::none();
    let mut under_faults = Counts::none();
    let mut names = Vec::new(rt.alloc());
    for name in env::args(rt)?.skip(1) {
        let bytes = fs::read(rt, name.as_str()).context(format_args!("reading {name}"))?;
        if name.ends_with(".names") {
            names = bytes;
            continue;
        }
        try_file(
            rt,
            bytes.as_slice(),
            names.as_slice(),
            &mut counts,
            &mut under_faults,
        )
        .context(format_args!("in {name}"))?;
    }
    println!(rt; "{} cases agree", counts.agreeing)?;
    println!(rt; "{} calls under faults agree", under_faults.agreeing)?;
    Ok(counts.differing == 0 && under_faults.differing == 0)
}

fn main(rt: HostRuntime) -> ExitCode {
    match try_files(&rt) {
        Ok(true) => ExitCode::from(0),
        Ok(false) => ExitCode::from(1),
        Err(error) => {
            // Where standard error is closed too, only the exit status reports it.
            let _ = eprintln!(rt; "psi_test_cases: {error:#}");
            ExitCode::from(2)
        }
    }
}
