ghost use Rattle.std.specs.Prelude.{◌≡◌, ◌∷◌, [], map, string_bytes};
ghost use Rattle.std.specs.Option.{option_map};
ghost use Rattle.agema_core.specs.Command as spec;

use crate::seed::read_seed;
use share_wiring::{Balance, Mode};

/// The words of a `mask` command.
#[derive(Clone, Copy)]
pub(crate) struct MaskWords<'a> {
    pub library: &'a str,
    pub net: &'a str,
    pub order: u32,
    pub mode: Mode,
    pub balance: Balance,
    pub out: &'a str,
}

/// The words of a `sim` command.
#[derive(Clone, Copy)]
pub(crate) struct SimWords<'a> {
    pub library: &'a str,
    pub net: &'a str,
    pub stimulus: &'a str,
}

/// The words of a `report` command.
#[derive(Clone, Copy)]
pub(crate) struct ReportWords<'a> {
    pub out: &'a str,
}

/// The words of an `audit` command.
#[derive(Clone, Copy)]
pub(crate) struct AuditWords<'a> {
    pub out: &'a str,
    pub order: u32,
}

/// The words of a `cones` command.
#[derive(Clone, Copy)]
pub(crate) struct ConesWords<'a> {
    pub out: &'a str,
    pub order: u32,
    pub probes: &'a str,
}

/// The words of a `both` command.
#[derive(Clone, Copy)]
pub(crate) struct BothWords<'a> {
    pub mask: MaskWords<'a>,
    pub stimulus: &'a str,
    pub seed: [u8; 32],
}

/// A command.
#[derive(Clone, Copy)]
pub(crate) enum Command<'a> {
    Mask(MaskWords<'a>),
    Sim(SimWords<'a>),
    Report(ReportWords<'a>),
    Audit(AuditWords<'a>),
    Cones(ConesWords<'a>),
    Both(BothWords<'a>),
}

// The order that a word spells, from 1 to 7.
fn read_order(word: &str) -> Option<u32>
    ensures { result ≡ spec.order_of word.now }
{
    match word.as_bytes() {
        [b] if b'1' <= *b && *b <= b'7' => Some((*b - b'0') as u32),
        _ => None,
    }
}

// The mode that a word spells.
fn read_mode(word: &str) -> Option<Mode>
    ensures { result ≡ spec.mode_of word.now }
{
    match word {
        "naive" => Some(Mode::Naive),
        "aig" => Some(Mode::Aig),
        "bdd" => Some(Mode::Bdd),
        _ => None,
    }
}

// The balance that a word spells.
fn read_balance(word: &str) -> Option<Balance>
    ensures { result ≡ spec.balance_of word.now }
{
    match word {
        "pipe" => Some(Balance::Pipe),
        "gate" => Some(Balance::Gate),
        _ => None,
    }
}

// Whether the first word is the command's own, and none of the names is empty.
fn are_names(own: &str, command: &str, first: &str, second: &str, third: &str) -> bool
    ensures { result ≡ spec.are_names own.now command.now first.now second.now third.now }
{
    command == own && (!first.is_empty() && (!second.is_empty() && !third.is_empty()))
}

// The `mask` command of the words behind the first one.
#[tactic(auto, unfolding(crate::specs::Command::parts_of))]
fn read_parts<'a>(
    library: &'a str,
    net: &'a str,
    order: &str,
    mode: &str,
    balance: &str,
    out: &'a str,
) -> Option<MaskWords<'a>>
    ensures { option_map spec.mask_of result ≡ spec.parts_of library.now net.now order.now mode.now balance.now out.now }
{
    let order = read_order(order)?;
    let mode = read_mode(mode)?;
    let balance = read_balance(balance)?;
    Some(MaskWords {
        library,
        net,
        order,
        mode,
        balance,
        out,
    })
}

// The same, as a command.
fn read_mask<'a>(
    library: &'a str,
    net: &'a str,
    order: &str,
    mode: &str,
    balance: &str,
    out: &'a str,
) -> Option<Command<'a>>
    ensures { option_map spec.request_of result ≡ spec.mask_request (spec.parts_of library.now net.now order.now mode.now balance.now out.now) }
{
    match read_parts(library, net, order, mode, balance, out) {
        Some(words) => Some(Command::Mask(words)),
        None => None,
    }
}

// The `audit` command of three words.
fn read_audit<'a>(command: &str, out: &'a str, order: &str) -> Option<Command<'a>>
    ensures { option_map spec.request_of result ≡ spec.audit_request command.now out.now order.now }
{
    if command != "audit" || out.is_empty() {
        return None;
    }
    match read_order(order) {
        Some(order) => Some(Command::Audit(AuditWords { out, order })),
        None => None,
    }
}

// The `cones` command of the words behind the first one.
fn read_cones<'a>(out: &'a str, order: &str, probes: &'a str) -> Option<Command<'a>>
    ensures { option_map spec.request_of result ≡ spec.cones_request out.now order.now probes.now }
{
    if out.is_empty() || probes.is_empty() {
        return None;
    }
    match read_order(order) {
        Some(order) => Some(Command::Cones(ConesWords { out, order, probes })),
        None => None,
    }
}

// The `sim` command of four words.
fn read_sim<'a>(
    command: &str,
    library: &'a str,
    net: &'a str,
    stimulus: &'a str,
) -> Option<Command<'a>>
    ensures { option_map spec.request_of result ≡ spec.sim_request command.now library.now net.now stimulus.now }
{
    if !are_names("sim", command, library, net, stimulus) {
        return None;
    }
    Some(Command::Sim(SimWords {
        library,
        net,
        stimulus,
    }))
}

// The `both` command of those of a `mask` command, a stimulus and a seed.
fn read_both<'a>(mask: Option<MaskWords<'a>>, stimulus: &'a str, seed: &str) -> Option<Command<'a>>
    ensures { option_map spec.request_of result ≡ spec.comparing_request (option_map spec.mask_of mask.entry) stimulus.now seed.now }
{
    if stimulus.is_empty() {
        return None;
    }
    match mask {
        Some(mask) => match read_seed(seed) {
            Some(seed) => Some(Command::Both(BothWords {
                mask,
                stimulus,
                seed,
            })),
            None => None,
        },
        None => None,
    }
}

// The `both` command of nine words.
fn read_comparing<'a>(
    command: &str,
    library: &'a str,
    net: &'a str,
    order: &str,
    mode: &str,
    balance: &str,
    out: &'a str,
    stimulus: &'a str,
    seed: &str,
) -> Option<Command<'a>>
    ensures { option_map spec.request_of result ≡ spec.command_of (command.now ∷ library.now ∷ net.now ∷ order.now ∷ mode.now ∷ balance.now ∷ out.now ∷ stimulus.now ∷ seed.now ∷ []) }
{
    if !are_names("both", command, library, net, out) {
        return None;
    }
    read_both(
        read_parts(library, net, order, mode, balance, out),
        stimulus,
        seed,
    )
}

/// The command that the words are, None where they are none.
pub(crate) fn read_command(words: &[String]) -> Option<Command<'_>>
    ensures { option_map spec.request_of result ≡ spec.command_of (map string_bytes words.now) }
{
    match words {
        [command, library, net, order, mode, balance, out] => {
            let library = library.as_str();
            let net = net.as_str();
            let out = out.as_str();
            if !are_names("mask", command.as_str(), library, net, out) {
                return None;
            }
            read_mask(
                library,
                net,
                order.as_str(),
                mode.as_str(),
                balance.as_str(),
                out,
            )
        }
        [
            command,
            library,
            net,
            order,
            mode,
            balance,
            out,
            stimulus,
            seed,
        ] => read_comparing(
            command.as_str(),
            library.as_str(),
            net.as_str(),
            order.as_str(),
            mode.as_str(),
            balance.as_str(),
            out.as_str(),
            stimulus.as_str(),
            seed.as_str(),
        ),
        [command, first, second, third] => {
            let first = first.as_str();
            let third = third.as_str();
            if command.as_str() == "cones" {
                return read_cones(first, second.as_str(), third);
            }
            read_sim(command.as_str(), first, second.as_str(), third)
        }
        [command, out, order] => read_audit(command.as_str(), out.as_str(), order.as_str()),
        [command, out] => {
            let out = out.as_str();
            if command.as_str() == "report" && !out.is_empty() {
                Some(Command::Report(ReportWords { out }))
            } else {
                None
            }
        }
        _ => None,
    }
}
