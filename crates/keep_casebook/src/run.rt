// The loop over the files of cases beside a program.
use crate::answer::{Answer, first_difference};
use crate::book::{Book, Case};
use std::alloc::Global;
use std::{fs, io};

// How the names of the files of cases end.
const ENDING: &str = ".cases";

/// What a program of cases brings: which call answers the cases of a file.
pub trait Subjects {
    /// Adds what the subject of this name answers to a case. False: no subject has this name, and nothing was added.
    fn answer_to(&self, alloc: Global, subject: &str, case: &Case, answer: &mut Answer) -> bool;
}

// The files of cases, ascending by name.
fn file_names(rt: &HostRuntime) -> io::Result<Vec<String>> {
    let mut names = Vec::new(rt.alloc());
    for entry in fs::read_dir(rt, ".")? {
        let name = String::from_str(rt.alloc(), entry?.file_name())?;
        if name.as_str().ends_with(ENDING) {
            names.push(name)?;
        } else {
            println!(rt; "{name}: not a file of cases")?;
        }
    }
    names.sort_unstable();
    Ok(names)
}

// The subject is the part of the file's name before its first dot or dash.
fn subject_of(name: &str) -> &str {
    match name.split_once(['.', '-']) {
        Some((subject, _)) => subject,
        None => name,
    }
}

// Prints the line of a case.
fn run_case<S: Subjects>(
    rt: &HostRuntime,
    subjects: &S,
    subject: &str,
    case: &Case,
) -> io::Result<()> {
    let name = case.name;
    let mut answer = Answer::new(rt.alloc());
    if !subjects.answer_to(rt.alloc(), subject, case, &mut answer) {
        return println!(rt; "{subject}: {name}: no such subject");
    }
    match first_difference(case.expected(), answer.lines()) {
        None => println!(rt; "{subject}: {name}: ok"),
        Some((wanted, given)) => {
            println!(rt; "{subject}: {name}: wanted {wanted} and not {given}")
        }
    }
}

fn run_file<S: Subjects>(rt: &HostRuntime, subjects: &S, name: &str) -> io::Result<()> {
    let alloc = rt.alloc();
    let text = fs::read_to_string(rt, name)?;
    let mut book = Book::new(alloc);
    for line in text.as_str().lines() {
        if !book.add_line(alloc, line)? {
            println!(rt; "{name}: not a line of a case: {line}")?;
        }
    }
    let mut has_case = false;
    for part in book.parts() {
        if !part.is_text() {
            has_case = true;
            run_case(rt, subjects, subject_of(name), part)?;
        }
    }
    if has_case {
        Ok(())
    } else {
        println!(rt; "{name}: no case")
    }
}

/// Runs each case of the files `SUBJECT.cases` and `SUBJECT-MORE.cases` of the folder that the program runs in, ascending by name, and prints a line for it: its name
/// and `ok`, or the first lines that differ.
pub fn run_cases<S: Subjects>(rt: &HostRuntime, subjects: &S) -> io::Result<()> {
    for name in file_names(rt)? {
        run_file(rt, subjects, name.as_str())?;
    }
    Ok(())
}
