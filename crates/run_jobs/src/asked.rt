//! What a request asks of a plan's tables, by its options.

ghost use Rattle.std.specs.Prelude.{◌≡◌, ◌<◌, ◌≤◌, IfOk, IfSome, nat_lt};
ghost use Rattle.std.specs.Option.{option_and_then};
ghost use Rattle.schema_facts.specs.Layout.{layout_of};
ghost use Rattle.schema_plan.specs.Planned.{table_named};
ghost use Rattle.schema_facts.specs.TableFacts.{reach};
ghost use Rattle.life_intervals.specs.Generator.{last_unit};
ghost use Rattle.update_box.specs.Packages.{IsChoice, IsJobOf};
ghost use Rattle.sql_lines.specs.Reach.{statement_reach};
ghost use Rattle.run_jobs.specs.DueFiles.{asked, asked_by, chosen_table, default_package, most_page_bytes, package_by, package_of, page_bytes};
ghost use Rattle.run_jobs.specs.Jobs.{CanAsk, CanPackBy};
ghost use Rattle.run_jobs.specs.SqlFiles.{asked_in, reach_in, statements_asked};

use refusals::JobFault;
use request_words::{Format, OptionName, Request};
use schema_model::Text;
use schema_plan::Plan;
use sql_lines::statement_reach;
use update_box::Job;

/// The most bytes that the pages of all workers can have together.
pub const MOST_PAGE_BYTES: u64 = 67_108_864;

/// How many pages each worker has.
pub const PAGES: u64 = 8;

/// The most lines or statements of a package if the request gives no number.
const MOST_LINES: u64 = 1000;

/// The most bytes that a statement may have.
const MOST_STATEMENT: u64 = 131_072;

/// Returns the number of lines of a package if a request gives none: 1,000, or fewer so that the pages fit. `workers` (1 to 64)
/// have eight pages each. A page has room for a package of lines of at most `bytes` bytes (1 to 131,072). All pages together have at
/// most 67,108,864 bytes.
pub fn default_package(workers: u32, bytes: u64) -> u64
    requires some_worker { 1 ≤ workers }
    requires worker_limit { workers ≤ 64 }
    requires some_byte { 1 ≤ bytes }
    requires byte_limit { bytes ≤ 131072 }
    ensures lines { result ≡ default_package workers bytes }
    ensures some_line { 1 ≤ result }
    ensures line_limit { result ≤ 1000 }
{
    preset_package(workers, bytes)
}

/// Returns the number of lines or statements of a package if a request gives none. It is 0 only where one is longer than 131,072 bytes.
fn preset_package(workers: u32, bytes: u64) -> u64
    requires some_worker { 1 ≤ workers }
    requires worker_limit { workers ≤ 64 }
    requires some_byte { 1 ≤ bytes }
    requires byte_limit { bytes ≤ 262144 }
    ensures lines { result ≡ default_package workers bytes }
    ensures some_line { bytes ≤ 131072 → 1 ≤ result }
    ensures line_limit { result ≤ 1000 }
{
    MOST_LINES.min(MOST_PAGE_BYTES / (PAGES * u64::from(workers) * bytes))
}

/// Whether a unit is past the last unit of a plan.
pub fn is_past_last(plan: &Plan, unit: u64) -> bool
    ensures { result ≡ nat_lt (last_unit plan.now) unit }
{
    plan.units() < unit
}

/// Returns the place of the named table; None if no table has the name, or no name is given.
pub fn named_table(plan: &Plan, table: &Option<Text>) -> Option<u32>
    ensures { result ≡ option_and_then (table_named plan.now.schema) table.now }
{
    match table {
        None => None,
        Some(name) => plan.table_named(name.as_str()),
    }
}

/// Returns the place of the chosen table, or no place, for all tables, if no name is given. Returns None if no table has the name.
pub fn chosen_table(plan: &Plan, table: &Option<Text>) -> Option<Option<u32>>
    ensures table { result ≡ chosen_table plan.now.schema table.now }
    ensures within { IfSome result (IsChoice plan.now) }
{
    match table {
        None => Some(None),
        Some(name) => match plan.table_named(name.as_str()) {
            Some(place) => Some(Some(place)),
            None => None,
        },
    }
}

/// Returns how many lines a package of a request has.
pub fn package_of(plan: &Plan, request: &Request) -> u64
    requires { CanPackBy request.now }
    ensures lines { result ≡ package_of plan.now request.now }
    ensures some_line { 1 ≤ result }
    ensures line_limit { result ≤ 1000000 }
{
    let _limits = plan.schema(); // a line has at most 65,536 bytes
    package_by(request, plan.reach())
}

/// Returns how many lines or statements of at most `bytes` bytes a package of a request has. It is 0 only where the request doesn't say,
/// and one may be longer than 131,072 bytes.
fn package_by(request: &Request, bytes: u64) -> u64
    requires ranges { CanPackBy request.now }
    requires some_byte { 1 ≤ bytes }
    requires byte_limit { bytes ≤ 262144 }
    ensures lines { result ≡ package_by bytes request.now }
    ensures some_line { bytes ≤ 131072 → 1 ≤ result }
    ensures line_limit { result ≤ 1000000 }
{
    match request.package {
        Some(lines) => lines,
        None => preset_package(request.workers, bytes),
    }
}

/// Whether the pages of the workers have more bytes together than is allowed. A package has `lines` lines or statements of at most `bytes`
/// bytes.
pub fn is_past_pages(workers: u32, lines: u64, bytes: u64) -> bool
    requires worker_limit { workers ≤ 64 }
    requires line_limit { lines ≤ 1000000 }
    requires byte_limit { bytes ≤ 262144 }
    ensures { result ≡ nat_lt most_page_bytes (page_bytes workers lines bytes) }
{
    MOST_PAGE_BYTES < PAGES * u64::from(workers) * lines * bytes
}

/// Whether the pages of a request's workers have more bytes together than is allowed, with the request's packages.
pub fn is_past_room(plan: &Plan, request: &Request) -> bool
    requires { CanPackBy request.now }
    ensures { result ≡ nat_lt most_page_bytes (page_bytes request.now.workers (package_of plan.now request.now) (reach (layout_of plan.now))) }
{
    let _limits = plan.schema(); // a line has at most 65,536 bytes
    is_past_pages(request.workers, package_of(plan, request), plan.reach())
}

/// Returns what a request asks of a plan's tables at the request's unit, in the request's format. Refuses the first option out of range:
/// table, node, package, format.
pub fn asked_in(plan: &Plan, request: &Request) -> Result<Job, JobFault>
    requires unit { request.now.unit ≤ last_unit plan.now }
    requires ranges { CanAsk request.now }
    ensures asked { result ≡ asked_in request.now.format plan.now request.now }
    ensures job { IfOk result (IsJobOf plan.now) }
    ensures unit { IfOk result (λ job. job.unit ≡ request.now.unit) }
    ensures pages { IfOk result (λ job. page_bytes request.now.workers job.package (reach_in request.now.format (layout_of plan.now)) ≤ most_page_bytes) }
{
    match request.format {
        Format::Copy | Format::Csv => asked(plan, request),
        Format::Sql => statements_asked(plan, request),
    }
}

/// Returns what a request asks of a plan's tables in packages of lines. Refuses the first option out of range: table, node, package.
fn asked(plan: &Plan, request: &Request) -> Result<Job, JobFault>
    requires unit { request.now.unit ≤ last_unit plan.now }
    requires ranges { CanAsk request.now }
    ensures asked { result ≡ asked plan.now request.now }
    ensures job { IfOk result (IsJobOf plan.now) }
    ensures unit { IfOk result (λ job. job.unit ≡ request.now.unit) }
    ensures pages { IfOk result (λ job. page_bytes request.now.workers job.package (reach (layout_of plan.now)) ≤ most_page_bytes) }
{
    let _limits = plan.schema(); // a line has at most 65,536 bytes
    asked_by(plan, request, plan.reach())
}

/// Returns what a request asks of a plan's tables in packages of statements. Refuses the first option out of range: table, node, package,
/// and the format if statements are too long.
fn statements_asked(plan: &Plan, request: &Request) -> Result<Job, JobFault>
    requires unit { request.now.unit ≤ last_unit plan.now }
    requires ranges { CanAsk request.now }
    ensures asked { result ≡ statements_asked plan.now request.now }
    ensures job { IfOk result (IsJobOf plan.now) }
    ensures unit { IfOk result (λ job. job.unit ≡ request.now.unit) }
    ensures pages { IfOk result (λ job. page_bytes request.now.workers job.package (statement_reach (layout_of plan.now)) ≤ most_page_bytes) }
{
    let bytes = statement_reach(plan);
    let asked = match asked_by(plan, request, bytes) {
        Ok(asked) => asked,
        Err(fault) => return Err(fault),
    };
    if MOST_STATEMENT < bytes {
        return Err(JobFault::Range(OptionName::Format));
    }
    Ok(asked)
}

/// Returns what a request asks of a plan's tables in packages of lines or statements of at most `bytes` bytes. Refuses the first option out
/// of range: table, node, package.
fn asked_by(plan: &Plan, request: &Request, bytes: u64) -> Result<Job, JobFault>
    requires unit { request.now.unit ≤ last_unit plan.now }
    requires ranges { CanAsk request.now }
    requires some_byte { 1 ≤ bytes }
    requires byte_limit { bytes ≤ 262144 }
    ensures asked { result ≡ asked_by bytes plan.now request.now }
    ensures job { bytes ≤ 131072 → IfOk result (IsJobOf plan.now) }
    ensures unit { IfOk result (λ job. job.unit ≡ request.now.unit) }
    ensures pages { IfOk result (λ job. page_bytes request.now.workers job.package bytes ≤ most_page_bytes) }
{
    let Some(table) = chosen_table(plan, &request.table) else {
        return Err(JobFault::Range(OptionName::Table));
    };
    if request.nodes <= request.node {
        return Err(JobFault::Range(OptionName::Node));
    }
    let package = package_by(request, bytes);
    if is_past_pages(request.workers, package, bytes) {
        return Err(JobFault::Range(OptionName::Package));
    }
    Ok(Job {
        package,
        unit: request.unit,
        table,
        node: request.node,
        nodes: request.nodes,
    })
}
