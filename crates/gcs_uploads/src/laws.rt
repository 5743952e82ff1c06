//! What holds of an upload over every list of calls. Each law is the contract of a function that does nothing.
ghost use Rattle.gcs_uploads.specs.UploadLaws.{KeptIsSent, KeptStays};

/// No call loses or changes a byte that is kept.
pub fn law_kept_stays()
    ensures { KeptStays }
{}

/// What is kept is the beginning of the object whose pieces were sent.
pub fn law_kept_is_sent()
    ensures { KeptIsSent }
{}
