// cut_at FILE OFFSET: writes the list in force at that byte of a recording to standard output; without an offset that at its end.
#![tactic(auto)]

use aps_table::list::{LIST_BYTES, write_list};
use recording_file::asked::asked_table;
use std::process::ExitCode;

fn main(rt: HostRuntime) -> ExitCode {
    let Some(table) = asked_table(&rt) else {
        return ExitCode::FAILURE;
    };
    let mut out = [0u8; LIST_BYTES];
    match write_list(&table, &mut out) {
        Ok(size) => {
            io::write_all(1, &out[..size.min(out.len())]);
            ExitCode::SUCCESS
        }
        Err(why) => {
            io::write_all(2, b"refused ");
            io::print_decimal(2, u32::from(why) as u64);
            io::write_all(2, b"\n");
            ExitCode::FAILURE
        }
    }
}
