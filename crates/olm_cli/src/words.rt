// The words of the command line.
ghost use Rattle.std.specs.Prelude.{◌≡◌, ◌≤◌, option_map, IfSome};
ghost use Rattle.olm_cli.specs.Words as spec;

use olm_base::Text;

/// The budget where the words name none.
const DEFAULT_BUDGET: u32 = 10_000;

/// The greatest budget.
const GREATEST_BUDGET: u32 = 16_777_216;

/// Where a catalog stands. The word `@` is the input.
#[derive(Clone, Copy, Debug)]
pub enum Place<'w> {
    Input,
    /// The files below this path of the folder.
    Below(&'w Text),
}

/// A channel, as words name it. What is no name names nothing.
#[derive(Clone, Copy, Debug)]
pub struct ChannelWords<'w> {
    pub package_name: &'w Text,
    pub channel: &'w Text,
}

/// What is to be done with one catalog.
#[derive(Clone, Copy, Debug)]
pub enum Task<'w> {
    /// `check PATH`: says what it holds, or which rules it breaks.
    Check,
    /// `graph PATH PACKAGE CHANNEL`: lists the channel's upgrades.
    Graph(ChannelWords<'w>),
    /// `resolve [--budget=N] PATH PACKAGE CHANNEL`: decides for a subscription to the channel, with no more lemmas than
    /// the budget.
    Resolve {
        budget: u32,
        names: ChannelWords<'w>,
    },
}

/// A command, with the words that it is given.
#[derive(Clone, Copy, Debug)]
pub enum Command<'w> {
    /// `--help`: prints how the program is used.
    Help,
    OnCatalog {
        place: Place<'w>,
        task: Task<'w>,
    },
    /// `verify PATH PACKAGE CHANNEL`: says what the input shows of the problem of `resolve` over the folder's catalog.
    /// The word `@` is a folder's path here.
    Verify {
        path: &'w Text,
        names: ChannelWords<'w>,
    },
    /// `run`: applies the events of the input to the cluster file.
    Run,
    /// `show NAMESPACE`: lists the namespace's objects in the cluster file.
    Show {
        namespace: &'w Text,
    },
    /// `decide [--budget=N] NAMESPACE`: decides what is asked in the namespace, with no more lemmas than the budget.
    Decide {
        budget: u32,
        namespace: &'w Text,
    },
}

/// A budget, and the words of the form behind it.
#[derive(Clone, Copy, Debug)]
struct Budgeted<'w> {
    budget: u32,
    form: &'w [Text],
}

/// Whether a word is no option, and not empty.
fn is_plain(word: &Text) -> bool
    ensures { result ≡ spec.is_plain word.now }
{
    match word.as_slice() {
        [] => false,
        [first, ..] => *first != b'-',
    }
}

fn place_of(path: &Text) -> Place<'_>
    ensures { spec.place_view result ≡ spec.place_of path.now }
{
    if path.as_slice() == b"@".as_slice() {
        Place::Input
    } else {
        Place::Below(path)
    }
}

fn check_of(words: &[Text]) -> Option<Command<'_>>
    ensures { option_map spec.command_view result ≡ spec.check_of words.now }
{
    match words {
        [path] => {
            if is_plain(path) {
                let place = place_of(path);
                Some(Command::OnCatalog {
                    place,
                    task: Task::Check,
                })
            } else {
                None
            }
        }
        _ => None,
    }
}

fn graph_of(words: &[Text]) -> Option<Command<'_>>
    ensures { option_map spec.command_view result ≡ spec.graph_of words.now }
{
    match words {
        [path, package_name, channel] => {
            if is_plain(path) && is_plain(package_name) && is_plain(channel) {
                let place = place_of(path);
                let task = Task::Graph(ChannelWords {
                    package_name,
                    channel,
                });
                Some(Command::OnCatalog { place, task })
            } else {
                None
            }
        }
        _ => None,
    }
}

fn resolve_within(budget: u32, words: &[Text]) -> Option<Command<'_>>
    ensures { option_map spec.command_view result ≡ spec.resolve_within budget words.now }
{
    match words {
        [path, package_name, channel] => {
            if is_plain(path) && is_plain(package_name) && is_plain(channel) {
                let place = place_of(path);
                let names = ChannelWords {
                    package_name,
                    channel,
                };
                let task = Task::Resolve { budget, names };
                Some(Command::OnCatalog { place, task })
            } else {
                None
            }
        }
        _ => None,
    }
}

/// A number with one digit more behind it, where that is a budget.
fn with_digit(value: u32, digit: u8) -> Option<u32>
    requires { value ≤ spec.greatest_budget }
    ensures value { result ≡ spec.with_digit value digit }
    ensures bound { IfSome result (λ longer. longer ≤ spec.greatest_budget) }
{
    if !digit.is_ascii_digit() {
        return None;
    }
    let longer = value * 10 + u32::from(digit - b'0');
    if longer <= GREATEST_BUDGET {
        Some(longer)
    } else {
        None
    }
}

fn number_of(digits: &[u8]) -> Option<u32>
    ensures { result ≡ spec.number_after 0 digits.now }
{
    let mut value: u32 = 0;
    'digits: for digit in digits {
        match with_digit(value, *digit) {
            Some(longer) => value = longer,
            None => return None,
        }
    }
    Some(value)
}

/// The budget that these digits write.
fn budget_of(digits: &[u8]) -> Option<u32>
    ensures { result ≡ spec.budget_of digits.now }
{
    match digits {
        [] => None,
        [first, ..] => {
            if *first == b'0' {
                None
            } else {
                number_of(digits)
            }
        }
    }
}

/// What stands behind `--budget=`.
fn budget_text(word: &Text) -> Option<&[u8]>
    ensures { option_map (λ digits. digits.now) result ≡ spec.budget_text word.now }
{
    word.as_slice().strip_prefix(b"--budget=")
}

/// The budget, which may stand first, and the words behind it.
fn budget_first(words: &[Text]) -> Option<Budgeted<'_>>
    ensures { option_map (λ found. (found.budget, found.form.now)) result ≡ spec.budget_first words.now }
{
    match words {
        [] => Some(Budgeted {
            budget: DEFAULT_BUDGET,
            form: words,
        }),
        [word, rest @ ..] => match budget_text(word) {
            None => Some(Budgeted {
                budget: DEFAULT_BUDGET,
                form: words,
            }),
            Some(digits) => match budget_of(digits) {
                None => None,
                Some(budget) => Some(Budgeted { budget, form: rest }),
            },
        },
    }
}

fn resolve_of(words: &[Text]) -> Option<Command<'_>>
    ensures { option_map spec.command_view result ≡ spec.resolve_of words.now }
{
    match budget_first(words) {
        None => None,
        Some(Budgeted { budget, form }) => resolve_within(budget, form),
    }
}

fn verify_of(words: &[Text]) -> Option<Command<'_>>
    ensures { option_map spec.command_view result ≡ spec.verify_of words.now }
{
    match words {
        [path, package_name, channel] => {
            if is_plain(path) && is_plain(package_name) && is_plain(channel) {
                let names = ChannelWords {
                    package_name,
                    channel,
                };
                Some(Command::Verify { path, names })
            } else {
                None
            }
        }
        _ => None,
    }
}

fn run_of(words: &[Text]) -> Option<Command<'_>>
    ensures { option_map spec.command_view result ≡ spec.run_of words.now }
{
    match words {
        [] => Some(Command::Run),
        _ => None,
    }
}

fn show_of(words: &[Text]) -> Option<Command<'_>>
    ensures { option_map spec.command_view result ≡ spec.show_of words.now }
{
    match words {
        [namespace] => {
            if is_plain(namespace) {
                Some(Command::Show { namespace })
            } else {
                None
            }
        }
        _ => None,
    }
}

fn decide_within(budget: u32, words: &[Text]) -> Option<Command<'_>>
    ensures { option_map spec.command_view result ≡ spec.decide_within budget words.now }
{
    match words {
        [namespace] => {
            if is_plain(namespace) {
                Some(Command::Decide { budget, namespace })
            } else {
                None
            }
        }
        _ => None,
    }
}

fn decide_of(words: &[Text]) -> Option<Command<'_>>
    ensures { option_map spec.command_view result ≡ spec.decide_of words.now }
{
    match budget_first(words) {
        None => None,
        Some(Budgeted { budget, form }) => decide_within(budget, form),
    }
}

/// The one word `--help`.
fn help_of(words: &[Text]) -> Option<Command<'_>>
    ensures { option_map spec.command_view result ≡ spec.help_of words.now }
{
    match words {
        [] => Some(Command::Help),
        _ => None,
    }
}

/// A command over a catalog, by its name and the words behind it.
fn catalog_command_of<'w>(name: &Text, words: &'w [Text]) -> Option<Command<'w>>
    ensures { option_map spec.command_view result ≡ spec.catalog_command_of name.now words.now }
{
    if name.as_slice() == b"check".as_slice() {
        check_of(words)
    } else if name.as_slice() == b"graph".as_slice() {
        graph_of(words)
    } else if name.as_slice() == b"resolve".as_slice() {
        resolve_of(words)
    } else if name.as_slice() == b"verify".as_slice() {
        verify_of(words)
    } else {
        None
    }
}

/// Any command, by its name and the words behind it.
fn named_command_of<'w>(name: &Text, words: &'w [Text]) -> Option<Command<'w>>
    ensures { option_map spec.command_view result ≡ spec.named_command_of name.now words.now }
{
    if name.as_slice() == b"run".as_slice() {
        run_of(words)
    } else if name.as_slice() == b"show".as_slice() {
        show_of(words)
    } else if name.as_slice() == b"decide".as_slice() {
        decide_of(words)
    } else if name.as_slice() == b"--help".as_slice() {
        help_of(words)
    } else {
        catalog_command_of(name, words)
    }
}

/// The command that the words stand for.
pub fn command_of(words: &[Text]) -> Option<Command<'_>>
    ensures { option_map spec.command_view result ≡ spec.command_of words.now }
{
    match words {
        [] => None,
        [name, rest @ ..] => named_command_of(name, rest),
    }
}
