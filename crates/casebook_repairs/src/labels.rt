//! Names and times of lines: those of a machine, and those of about documents.
ghost use Rattle.std.specs.Prelude.{◌≡◌, ◌++◌, IfOk, IfErr, OnOk, Some, map, option_map};
ghost use Rattle.casebook_about.specs.About.{about_in, about_view};
ghost use Rattle.casebook_about.specs.Rows.{time_view, user_view};
ghost use Rattle.casebook_repairs.specs.Labels.{AreLabels, AreLabelsIn, AreOwnLabels, AreTimesAdded};
ghost use Rattle.casebook_repairs.specs.Labels.{IsAbout, IsTimeAdded, line_time, times_by, times_in};
ghost use Rattle.casebook_repairs.specs.Labels.{times_of, with_users};
ghost use Rattle.casebook_repairs.specs.Stops.{AreBadTimes, IsBadTime, IsNoAbout, StopsAbout};
ghost use Rattle.casebook_repairs.specs.Stops.{StopsLabels, StopsOwn};
ghost use Rattle.casebook_repairs.specs.Views.{document_view};

use crate::NoMem;
use crate::document::Document;
use crate::knowledge::Knowledge;
use crate::stop::Stop;
use casebook_about::{About, AboutFault, Labels, LineTime, SessionUser, read_about, time_text};
use casebook_account::{Machine, MachineLine};
use jiff::Error;
use std::alloc::Global;

/// Returns what an about document says.
fn about_of<'a>(alloc: Global, document: &Document<'a>) -> Result<About, Stop<'a>>
    ensures ok { IfOk result (λ about. IsAbout (document_view document.now) (about_view about)) }
    ensures err { IfErr result (IsNoAbout (document_view document.now)) }
{
    let Ok(text) = std::str::from_utf8(document.bytes.as_slice()) else {
        return Err(Stop::BadText(document.name));
    };
    match read_about(alloc, text) {
        Ok(about) => Ok(about),
        Err(AboutFault::NoMem) => Err(Stop::OutOfMemory),
        Err(fault) => Err(Stop::BadAbout(document.name, fault)),
    }
}

/// Adds the names of users.
fn add_users(labels: &mut Labels, users: Vec<SessionUser>) -> Result<(), NoMem>
    ensures { OnOk result (labels.new ≡ with_users (map user_view users.items) labels.old) }
{
    for user in users {
        labels.add_name(user.session, user.user)?;
    }
    Ok(())
}

/// Adds the time of a line.
fn add_time<'a>(alloc: Global, labels: &mut Labels, time: LineTime) -> Result<(), Stop<'a>>
    ensures ok { OnOk result (IsTimeAdded (time_view time) labels.old labels.new) }
    ensures err { IfErr result (IsBadTime time.number) }
{
    match time_text(alloc, time.second) {
        Ok(text) => Ok(labels.add_time(time.number, text)?),
        Err(Error::OutOfMemory) => Err(Stop::OutOfMemory),
        Err(_) => Err(Stop::BadTime(time.number)),
    }
}

/// Adds the times of lines.
fn add_times<'a>(alloc: Global, labels: &mut Labels, times: &[LineTime]) -> Result<(), Stop<'a>>
    ensures ok { OnOk result (AreTimesAdded (map time_view times.now) labels.old labels.new) }
    ensures err { IfErr result (AreBadTimes (map time_view times.now)) }
{
    for time in times {
        add_time(alloc, labels, *time)?;
    }
    Ok(())
}

/// Adds the names of a machine's users.
fn add_own_users(alloc: Global, labels: &mut Labels, users: &[SessionUser]) -> Result<(), NoMem>
    ensures { OnOk result (labels.new ≡ with_users (map user_view users.now) labels.old) }
{
    for user in users {
        let name = String::from_str(alloc, user.user.as_str())?;
        labels.add_name(user.session, name)?;
    }
    Ok(())
}

/// Returns when the lines of a machine were seen.
fn own_times(alloc: Global, lines: &[MachineLine]) -> Result<Vec<LineTime>, NoMem>
    ensures { IfOk result (λ times. map time_view times.items ≡ map line_time lines.now) }
{
    let mut times = Vec::with_capacity(alloc, lines.len())?;
    for line in lines {
        times.push(LineTime {
            number: line.number,
            second: line.second,
        })?;
    }
    Ok(times)
}

/// Returns what a machine says of its lines.
fn known_by_machine<'a>(alloc: Global, machine: &Machine) -> Result<Knowledge, Stop<'a>>
    ensures labels { IfOk result (λ known. AreOwnLabels (Some machine.now) known.labels) }
    ensures times { IfOk result (λ known.
        map time_view known.times.items ≡ times_by (Some machine.now)) }
    ensures err { IfErr result (StopsOwn (Some machine.now)) }
{
    let mut labels = Labels::none(alloc);
    add_own_users(alloc, &mut labels, machine.users.as_slice())?;
    let times = own_times(alloc, machine.lines.as_slice())?;
    add_times(alloc, &mut labels, times.as_slice())?;
    Ok(Knowledge { labels, times })
}

/// Returns what is known of lines without a document about them: what a machine says, or nothing.
fn own_knowledge<'a>(alloc: Global, machine: &Option<Machine>) -> Result<Knowledge, Stop<'a>>
    ensures labels { IfOk result (λ known. AreOwnLabels machine.now known.labels) }
    ensures times { IfOk result (λ known. map time_view known.times.items ≡ times_by machine.now) }
    ensures err { IfErr result (StopsOwn machine.now) }
{
    match machine {
        Some(machine) => known_by_machine(alloc, machine),
        None => Ok(Knowledge {
            labels: Labels::none(alloc),
            times: Vec::new(alloc),
        }),
    }
}

/// Adds what an about document says.
fn add_about<'a>(
    alloc: Global,
    known: Knowledge,
    document: &Document<'a>,
) -> Result<Knowledge, Stop<'a>>
    ensures labels { IfOk result (λ more.
        AreLabelsIn (document_view document.now) known.labels more.labels) }
    ensures times { IfOk result (λ more. map time_view more.times.items
        ≡ map time_view known.times.items
        ++ times_of (about_in (document_view document.now).bytes)) }
    ensures err { IfErr result (StopsAbout (document_view document.now)) }
{
    let Knowledge {
        mut labels,
        mut times,
    } = known;
    let mut about = about_of(alloc, document)?;
    add_users(&mut labels, about.users)?;
    add_times(alloc, &mut labels, about.times.as_slice())?;
    times.append(&mut about.times)?;
    Ok(Knowledge { labels, times })
}

/// Returns what is known of lines: what a machine says, and then what an about document says, if one
/// is given.
pub fn known_of<'a>(
    alloc: Global,
    machine: &Option<Machine>,
    about: &Option<Document<'a>>,
) -> Result<Knowledge, Stop<'a>>
    ensures labels { IfOk result (λ known.
        AreLabels machine.now (option_map document_view about.now) known.labels) }
    ensures times { IfOk result (λ known. map time_view known.times.items
        ≡ times_in machine.now (option_map document_view about.now)) }
    ensures err { IfErr result (StopsLabels machine.now (option_map document_view about.now)) }
{
    let known = own_knowledge(alloc, machine)?;
    match about {
        Some(document) => add_about(alloc, known, document),
        None => Ok(known),
    }
}

/// Returns the names and times of lines.
pub(crate) fn labels_of<'a>(
    alloc: Global,
    machine: &Option<Machine>,
    about: &Option<Document<'a>>,
) -> Result<Labels, Stop<'a>>
    ensures ok { IfOk result (AreLabels machine.now (option_map document_view about.now)) }
    ensures err { IfErr result (StopsLabels machine.now (option_map document_view about.now)) }
{
    Ok(known_of(alloc, machine, about)?.labels)
}
