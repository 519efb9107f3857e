// sets_at FILE OFFSET: prints the sets in force at that byte of a recording; without an offset those at its end.
#![tactic(auto)]

use recording_file::asked::asked_table;
use sets_text::print_table;
use std::process::ExitCode;

fn main(rt: HostRuntime) -> ExitCode {
    let Some(table) = asked_table(&rt) else {
        return ExitCode::FAILURE;
    };
    print_table(&table);
    ExitCode::SUCCESS
}
