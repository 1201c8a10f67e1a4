ghost use Rattle.std.specs.Prelude.{◌≡◌, ◌++◌, ◌∷◌, [], IfOk, codes, map};
ghost use Rattle.std.specs.List.{flat_map};
ghost use Rattle.std.specs.Fmt.{decimal};
ghost use Rattle.agema_answers.specs.Explained as spec;

use crate::{Ended, Refusal};
use agm_bits::{List, Memory, Name};
use annotations::AnnotationFault;
use cell_library::{Bar, CellCause};
use masked_writer::ReportCause;
use probe_lists::ProbeCause;
use std::alloc::Global;
use stimulus::StimulusCause;

fn cell_cause_text(cause: CellCause) -> &'static [u8]
    ensures { result.now ≡ spec.cell_cause_text cause }
{
    match cause {
        CellCause::Duplicate => b"Duplicate",
        CellCause::Reserved => b"Reserved",
    }
}

fn bar_text(bar: Bar) -> &'static [u8]
    ensures { result.now ≡ spec.bar_text bar }
{
    match bar {
        Bar::Bus => b"Bus",
        Bar::Latch => b"Latch",
        Bar::StateTable => b"StateTable",
        Bar::Bank => b"Bank",
        Bar::TwoStates => b"TwoStates",
        Bar::DoublePin => b"DoublePin",
        Bar::Direction => b"Direction",
        Bar::ThreeState => b"ThreeState",
        Bar::AsyncControl => b"AsyncControl",
        Bar::ClockShape => b"ClockShape",
        Bar::NoFunction => b"NoFunction",
        Bar::FunctionText => b"FunctionText",
        Bar::UnknownName => b"UnknownName",
    }
}

fn report_cause_text(cause: ReportCause) -> &'static [u8]
    ensures { result.now ≡ spec.report_cause_text cause }
{
    match cause {
        ReportCause::Json => b"Json",
        ReportCause::Shape => b"Shape",
        ReportCause::Version => b"Version",
        ReportCause::Range => b"Range",
    }
}

fn stimulus_cause_text(cause: StimulusCause) -> &'static [u8]
    ensures { result.now ≡ spec.stimulus_cause_text cause }
{
    match cause {
        StimulusCause::Json => b"Json",
        StimulusCause::Shape => b"Shape",
        StimulusCause::Streams => b"Streams",
        StimulusCause::Steps => b"Steps",
        StimulusCause::Initial => b"Initial",
        StimulusCause::Inputs => b"Inputs",
        StimulusCause::Bits => b"Bits",
        StimulusCause::Cycles => b"Cycles",
    }
}

fn probe_cause_text(cause: ProbeCause) -> &'static [u8]
    ensures { result.now ≡ spec.probe_cause_text cause }
{
    match cause {
        ProbeCause::Json => b"Json",
        ProbeCause::Shape => b"Shape",
        ProbeCause::Wire => b"Wire",
        ProbeCause::Cycle => b"Cycle",
        ProbeCause::Index => b"Index",
        ProbeCause::Count => b"Count",
    }
}

// A text with a field behind it.
fn with_field(text: Name, name: &[u8], value: &[u8]) -> Result<Name, Memory>
    ensures { IfOk result (λ t. t ≡ text ++ spec.field name.now value.now) }
{
    let mut text = text;
    text.push(b' ')?;
    text.extend(name)?;
    text.push(b'=')?;
    text.extend(value)?;
    Ok(text)
}

// A text with a field of a number behind it.
fn with_number(alloc: Global, text: Name, name: &[u8], value: usize) -> Result<Name, Memory>
    ensures { IfOk result (λ t. t ≡ text ++ spec.number name.now value) }
{
    let digits = format!(in alloc; "{value}")?;
    with_field(text, name, digits.as_bytes())
}

// An answer with one field.
fn one_field(alloc: Global, answer: &[u8], name: &[u8], value: &[u8]) -> Result<Name, Memory>
    ensures { IfOk result (λ t. t ≡ answer.now ++ spec.field name.now value.now) }
{
    with_field(Name::from_slice(alloc, answer)?, name, value)
}

// An answer with one field of a number.
fn one_number(alloc: Global, answer: &[u8], name: &[u8], value: usize) -> Result<Name, Memory>
    ensures { IfOk result (λ t. t ≡ answer.now ++ spec.number name.now value) }
{
    with_number(alloc, Name::from_slice(alloc, answer)?, name, value)
}

// An answer with an instance and one more field.
fn at_instance(
    alloc: Global,
    answer: &[u8],
    instance: &Name,
    name: &[u8],
    value: &Name,
) -> Result<Name, Memory>
    ensures { IfOk result (λ t. t ≡ answer.now ++ (spec.field (codes "instance") instance.now ++ spec.field name.now value.now)) }
{
    let text = one_field(alloc, answer, b"instance", instance.as_slice())?;
    with_field(text, name, value.as_slice())
}

fn barred_text(alloc: Global, instance: &Name, cell: &Name, cause: Bar) -> Result<Name, Memory>
    ensures { IfOk result (λ t. t ≡ codes "BarredCell" ++ (spec.field (codes "instance") instance.now ++ (spec.field (codes "cell") cell.now ++ spec.field (codes "cause") (spec.bar_text cause)))) }
{
    let text = at_instance(alloc, b"BarredCell", instance, b"cell", cell)?;
    with_field(text, b"cause", bar_text(cause))
}

fn cell_text(alloc: Global, name: &Name, cause: CellCause) -> Result<Name, Memory>
    ensures { IfOk result (λ t. t ≡ codes "Cell" ++ (spec.field (codes "name") name.now ++ spec.field (codes "cause") (spec.cell_cause_text cause))) }
{
    let text = one_field(alloc, b"Cell", b"name", name.as_slice())?;
    with_field(text, b"cause", cell_cause_text(cause))
}

fn driven_text(alloc: Global, wire: &Name, drivers: usize) -> Result<Name, Memory>
    ensures { IfOk result (λ t. t ≡ codes "Driven" ++ (spec.field (codes "wire") wire.now ++ spec.number (codes "drivers") drivers)) }
{
    let text = one_field(alloc, b"Driven", b"wire", wire.as_slice())?;
    with_number(alloc, text, b"drivers", drivers)
}

fn width_text(alloc: Global, left: usize, right: usize) -> Result<Name, Memory>
    ensures { IfOk result (λ t. t ≡ codes "Width" ++ (spec.number (codes "left") left ++ spec.number (codes "right") right)) }
{
    let text = one_number(alloc, b"Width", b"left", left)?;
    with_number(alloc, text, b"right", right)
}

fn stimulus_text(
    alloc: Global,
    cause: StimulusCause,
    stream: usize,
    step: usize,
) -> Result<Name, Memory>
    ensures { IfOk result (λ t. t ≡ codes "BadStimulus" ++ (spec.field (codes "cause") (spec.stimulus_cause_text cause) ++ (spec.number (codes "stream") stream ++ spec.number (codes "step") step))) }
{
    let text = one_field(alloc, b"BadStimulus", b"cause", stimulus_cause_text(cause))?;
    let text = with_number(alloc, text, b"stream", stream)?;
    with_number(alloc, text, b"step", step)
}

fn probe_text(alloc: Global, cause: ProbeCause, index: usize) -> Result<Name, Memory>
    ensures { IfOk result (λ t. t ≡ codes "BadProbe" ++ (spec.field (codes "cause") (spec.probe_cause_text cause) ++ spec.number (codes "index") index)) }
{
    let text = one_field(alloc, b"BadProbe", b"cause", probe_cause_text(cause))?;
    with_number(alloc, text, b"index", index)
}

// A fault of annotations.
fn annotation_text(alloc: Global, fault: AnnotationFault) -> Result<Name, Memory>
    ensures { IfOk result (λ t. t ≡ spec.annotation_text fault) }
{
    match fault {
        AnnotationFault::Reserved { port } => one_number(alloc, b"Reserved", b"port", port),
        AnnotationFault::Value { port } => one_number(alloc, b"Value", b"port", port),
        AnnotationFault::Twice { port } => one_number(alloc, b"Twice", b"port", port),
        AnnotationFault::SecondClock { port } => one_number(alloc, b"SecondClock", b"port", port),
        AnnotationFault::NoSecure => Name::from_slice(alloc, b"NoSecure"),
        AnnotationFault::NoClock => Name::from_slice(alloc, b"NoClock"),
        AnnotationFault::ClockUse { wire } => one_number(alloc, b"ClockUse", b"wire", wire),
        AnnotationFault::Memory => Name::from_slice(alloc, b"Memory"),
    }
}

// A name behind a comma.
fn one_more(text: Name, name: &Name) -> Result<Name, Memory>
    ensures { IfOk result (λ t. t ≡ text ++ 44 ∷ name.now) }
{
    let mut text = text;
    text.push(b',')?;
    text.extend(name.as_slice())?;
    Ok(text)
}

// Names, each behind a comma.
fn more_names(text: Name, names: &[Name]) -> Result<Name, Memory>
    ensures { IfOk result (λ t. t ≡ text ++ flat_map (λ u. 44 ∷ u) names.now) }
{
    let mut text = text;
    for name in names {
        text = one_more(text, name)?;
    }
    Ok(text)
}

// Names with commas between them.
fn joined(alloc: Global, names: &[Name]) -> Result<Name, Memory>
    ensures { IfOk result (λ t. t ≡ spec.joined names.now) }
{
    match names {
        [] => Ok(List::new(alloc)),
        [name, more @ ..] => more_names(Name::from_slice(alloc, name.as_slice())?, more),
    }
}

fn loop_text(alloc: Global, wires: &[Name]) -> Result<Name, Memory>
    ensures { IfOk result (λ t. t ≡ codes "Loop" ++ spec.field (codes "wires") (spec.joined wires.now)) }
{
    let wires = joined(alloc, wires)?;
    one_field(alloc, b"Loop", b"wires", wires.as_slice())
}

fn bad_annotation_text(alloc: Global, fault: AnnotationFault) -> Result<Name, Memory>
    ensures { IfOk result (λ t. t ≡ codes "BadAnnotation" ++ spec.field (codes "fault") (spec.annotation_text fault)) }
{
    let fault = annotation_text(alloc, fault)?;
    one_field(alloc, b"BadAnnotation", b"fault", fault.as_slice())
}

// A refusal's name and fields.
fn refusal_text(alloc: Global, refusal: &Refusal) -> Result<Name, Memory>
    ensures { IfOk result (λ t. t ≡ spec.refusal_text refusal.now) }
{
    match refusal {
        Refusal::TooLong { file } => one_field(alloc, b"TooLong", b"file", file.as_slice()),
        Refusal::LibrarySyntax { at } => one_number(alloc, b"LibrarySyntax", b"at", *at),
        Refusal::Cell { name, cause } => cell_text(alloc, name, *cause),
        Refusal::NetSyntax { at } => one_number(alloc, b"NetSyntax", b"at", *at),
        Refusal::UnknownCell { instance, cell } => at_instance(
            alloc,
            b"UnknownCell",
            instance,
            b"cell",
            cell,
        ),
        Refusal::UnknownPin { instance, pin } => at_instance(
            alloc,
            b"UnknownPin",
            instance,
            b"pin",
            pin,
        ),
        Refusal::UnknownWire { name } => one_field(alloc, b"UnknownWire", b"name", name.as_slice()),
        Refusal::Driven { wire, drivers } => driven_text(alloc, wire, *drivers),
        Refusal::Width { left, right } => width_text(alloc, *left, *right),
        Refusal::Top { candidates } => one_number(alloc, b"Top", b"candidates", *candidates),
        Refusal::Recursive { module } => one_field(
            alloc,
            b"Recursive",
            b"module",
            module.as_slice(),
        ),
        Refusal::BarredCell {
            instance,
            cell,
            cause,
        } => barred_text(alloc, instance, cell, *cause),
        Refusal::Clash { name } => one_field(alloc, b"Clash", b"name", name.as_slice()),
        Refusal::Loop { wires } => loop_text(alloc, wires.as_slice()),
        Refusal::BadAnnotation { fault } => bad_annotation_text(alloc, *fault),
        Refusal::Leak { port } => one_field(alloc, b"Leak", b"port", port.as_slice()),
        Refusal::TooLarge { operators } => one_number(alloc, b"TooLarge", b"operators", *operators),
        Refusal::TooWide { bits } => one_number(alloc, b"TooWide", b"bits", *bits),
        Refusal::BadReport { cause } => one_field(
            alloc,
            b"BadReport",
            b"cause",
            report_cause_text(*cause),
        ),
        Refusal::BadStimulus {
            cause,
            stream,
            step,
        } => stimulus_text(alloc, *cause, *stream, *step),
        Refusal::BadProbe { cause, index } => probe_text(alloc, *cause, *index),
        Refusal::NotHpc2 { wire } => one_field(alloc, b"NotHpc2", b"wire", wire.as_slice()),
        Refusal::NotBuilt => Name::from_slice(alloc, b"NotBuilt"),
    }
}

// An answer's name and fields.
fn answer_text(alloc: Global, ended: &Ended) -> Result<Name, Memory>
    ensures { IfOk result (λ t. t ≡ spec.answer_text ended.now) }
{
    match ended {
        Ended::Done => Name::from_slice(alloc, b"Done"),
        Ended::Usage => Name::from_slice(alloc, b"Usage"),
        Ended::ReadFault { file } => one_field(alloc, b"ReadFault", b"file", file.as_slice()),
        Ended::WriteFault { file } => one_field(alloc, b"WriteFault", b"file", file.as_slice()),
        Ended::PrintFault => Name::from_slice(alloc, b"PrintFault"),
        Ended::Memory => Name::from_slice(alloc, b"Memory"),
        Ended::Refused(refusal) => refusal_text(alloc, refusal),
    }
}

// `status` and a number.
fn status_text(alloc: Global, status: u8) -> Result<Name, Memory>
    ensures { IfOk result (λ t. t ≡ codes "status " ++ decimal status) }
{
    let text = format!(in alloc; "status {status}")?;
    Name::from_slice(alloc, text.as_bytes())
}

impl Refusal {
    ghost use Rattle.std.specs.Prelude.{◌≡◌};
    ghost use Rattle.agema_answers.specs.Status.{refusal_status};

    // The exit status.
    fn status(&self) -> u8
        ensures { result ≡ refusal_status self.now }
    {
        match self {
            Refusal::TooLong { .. } => 10,
            Refusal::LibrarySyntax { .. } => 11,
            Refusal::NetSyntax { .. } => 12,
            Refusal::Cell { .. } => 13,
            Refusal::UnknownCell { .. } => 14,
            Refusal::UnknownPin { .. } => 15,
            Refusal::UnknownWire { .. } => 16,
            Refusal::Driven { .. } => 17,
            Refusal::Width { .. } => 18,
            Refusal::Top { .. } => 19,
            Refusal::Recursive { .. } => 19,
            Refusal::Loop { .. } => 20,
            Refusal::BadAnnotation { .. } => 21,
            Refusal::Leak { .. } => 22,
            Refusal::TooLarge { .. } => 23,
            Refusal::BadReport { .. } => 24,
            Refusal::BadStimulus { .. } => 25,
            Refusal::BadProbe { .. } => 26,
            Refusal::NotHpc2 { .. } => 27,
            Refusal::BarredCell { .. } => 29,
            Refusal::Clash { .. } => 30,
            Refusal::NotBuilt => 31,
            Refusal::TooWide { .. } => 35,
        }
    }
}

impl Ended {
    ghost use Rattle.std.specs.Prelude.{◌≡◌, IfOk};
    ghost use Rattle.agema_answers.specs.Status.{status_of};
    ghost use Rattle.agema_answers.specs.Explained.{explained};

    /// The program's exit status.
    pub fn status(&self) -> u8
        ensures { result ≡ status_of self.now }
    {
        match self {
            Ended::Done => 0,
            Ended::Usage => 2,
            Ended::ReadFault { .. } => 3,
            Ended::WriteFault { .. } => 4,
            Ended::Memory => 5,
            Ended::PrintFault => 6,
            Ended::Refused(refusal) => refusal.status(),
        }
    }

    /// The line that the program prints on standard error: `status`, the number, the answer's name, and its fields.
    ///
    /// # Errors
    ///
    /// `Memory` where memory runs out.
    pub fn explain(&self, alloc: Global) -> Result<Name, Memory>
        ensures { IfOk result (λ line. line ≡ explained self.now) }
    {
        let mut line = status_text(alloc, self.status())?;
        let answer = answer_text(alloc, self)?;
        line.push(b' ')?;
        line.extend(answer.as_slice())?;
        line.push(b'\n')?;
        Ok(line)
    }
}
