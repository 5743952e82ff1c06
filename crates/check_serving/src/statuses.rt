//! The statuses.
use crate::report::tell;
use gcs_workers::Status;
use std::io;

/// The table of statuses.
const STATUSES: [(Status, &str); 7] = [
    (Status::Done, "0"),
    (Status::Refused, "2"),
    (Status::ReadFault, "3"),
    (Status::WriteFault, "4"),
    (Status::NoMemory, "5"),
    (Status::Cut, "6"),
    (Status::ListenFault, "7"),
];

/// Tries each row.
pub fn try_statuses(rt: &(impl Print + AllocGlobal)) -> io::Result<bool> {
    let alloc = rt.alloc();
    let mut all_ok = true;
    for (status, number) in STATUSES {
        let case = format!(in alloc; "status {status:?}")?;
        let came = format!(in alloc; "{}", status.number())?;
        all_ok &= tell(rt, case.as_str(), came.as_str(), number)?;
    }
    Ok(all_ok)
}
