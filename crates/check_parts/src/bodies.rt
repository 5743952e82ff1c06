//! Multipart bodies, and what must be told of each in pieces of any size.

/// A body.
pub struct BodyRow {
    pub name: &'static str,
    pub content_type: &'static str,
    pub body: &'static str,
    /// What is told of it, as a line of a `Telling`.
    pub told: &'static str,
}

const USUAL: &str = "multipart/related; boundary=b";

/// Bodies by RFC 2046, 5.1.1; where that leaves a choice, by the table in the README of gcs_multipart.
pub static BODIES: [BodyRow; 29] = [
    BodyRow {
        name: "an_upload",
        content_type: "multipart/related; boundary=foo_bar_baz",
        body: "--foo_bar_baz\r\nContent-Type: application/json; charset=UTF-8\r\n\r\n\
            {\"name\":\"myObject\"}\r\n--foo_bar_baz\r\nContent-Type: image/jpeg\r\n\r\n\
            JPEG data\r\n--foo_bar_baz--",
        told: "<=application/json; charset=UTF-8|{\"name\":\"myObject\"}><=image/jpeg|JPEG data!.",
    },
    BodyRow {
        name: "the_example_of_the_standard",
        content_type: "multipart/mixed; boundary=\"simple boundary\"",
        body: "This is the preamble.  It is to be ignored, though it\r\n\
            is a handy place for composition agents to include an\r\n\
            explanatory note to non-MIME conformant readers.\r\n\r\n--simple boundary\r\n\
            \r\nThis is implicitly typed plain US-ASCII text.\r\n\
            It does NOT end with a linebreak.\r\n--simple boundary\r\n\
            Content-type: text/plain; charset=us-ascii\r\n\r\n\
            This is explicitly typed plain US-ASCII text.\r\n\
            It DOES end with a linebreak.\r\n\r\n--simple boundary--\r\n\r\n\
            This is the epilogue.  It is also to be ignored.\r\n",
        told: "<|This is implicitly typed plain US-ASCII text.\r\n\
            It does NOT end with a linebreak.><=text/plain; charset=us-ascii|\
            This is explicitly typed plain US-ASCII text.\r\n\
            It DOES end with a linebreak.\r\n!.",
    },
    BodyRow {
        name: "no_bytes",
        content_type: USUAL,
        body: "",
        told: "",
    },
    BodyRow {
        name: "no_delimiter",
        content_type: USUAL,
        body: "hello\r\n",
        told: "",
    },
    BodyRow {
        name: "no_part",
        content_type: USUAL,
        body: "--b--",
        told: "!.",
    },
    BodyRow {
        name: "no_part_behind_an_empty_line",
        content_type: USUAL,
        body: "\r\n--b--",
        told: "!.",
    },
    BodyRow {
        name: "one_part",
        content_type: USUAL,
        body: "--b\r\nA: 1\r\n\r\none\r\n--b--",
        told: "<|one!.",
    },
    BodyRow {
        name: "three_parts",
        content_type: USUAL,
        body: "--b\r\n\r\none\r\n--b\r\n\r\ntwo\r\n--b\r\n\r\nthree\r\n--b--",
        told: "<|one><|two><|three!.",
    },
    BodyRow {
        name: "a_delimiter_within_the_first_line_is_none",
        content_type: USUAL,
        body: "x--b\r\n\r\none\r\n--b--",
        told: "!.",
    },
    BodyRow {
        name: "bytes_behind_the_last_delimiter",
        content_type: USUAL,
        body: "--b\r\n\r\none\r\n--b--after\r\n--b\r\n\r\ntwo\r\n--b--",
        told: "<|one!.",
    },
    BodyRow {
        name: "the_last_delimiter_is_missing",
        content_type: USUAL,
        body: "--b\r\n\r\none\r\n--b\r\n\r\ntwo",
        told: "<|one><|two",
    },
    BodyRow {
        name: "cut_in_the_last_delimiter",
        content_type: USUAL,
        body: "--b\r\n\r\nall but the last\r\n--b-",
        told: "<|all but the last",
    },
    BodyRow {
        name: "cut_in_the_lines_of_a_part",
        content_type: USUAL,
        body: "--b\r\nA: 1\r\n",
        told: "",
    },
    BodyRow {
        name: "a_part_without_lines",
        content_type: USUAL,
        body: "--b\r\n\r\none\r\n--b--",
        told: "<|one!.",
    },
    BodyRow {
        name: "a_part_without_an_empty_line",
        content_type: USUAL,
        body: "--b\r\nA: 1\r\n--b--",
        told: "",
    },
    BodyRow {
        name: "a_delimiter_among_the_lines_of_a_part",
        content_type: USUAL,
        body: "--b\r\nA: 1\r\n--b\r\n\r\none\r\n--b--",
        told: "<|one!.",
    },
    BodyRow {
        name: "empty_content",
        content_type: USUAL,
        body: "--b\r\nA: 1\r\n\r\n\r\n--b\r\n\r\n\r\n--b--",
        told: "<|><|!.",
    },
    BodyRow {
        name: "empty_content_without_a_line_of_its_own",
        content_type: USUAL,
        body: "--b\r\nA: 1\r\n\r\n--b--",
        told: "<|--b--",
    },
    BodyRow {
        name: "blanks_behind_a_boundary",
        content_type: USUAL,
        body: "--b\r\n\r\none\r\n--b \r\n\r\ntwo\r\n--b--",
        told: "<|one\r\n--b \r\n\r\ntwo!.",
    },
    BodyRow {
        name: "lines_that_end_with_lf_alone",
        content_type: USUAL,
        body: "--b\n\none\n--b--\r\n--b--",
        told: "!.",
    },
    BodyRow {
        name: "content_of_returns",
        content_type: USUAL,
        body: "--b\r\n\r\n\r\r\n\n\r\r\r\n--b--",
        told: "<|\r\r\n\n\r\r!.",
    },
    BodyRow {
        name: "content_that_is_nearly_a_delimiter",
        content_type: USUAL,
        body: "--b\r\n\r\n--b--\r\n--bx\r\n--b\r--b\r\n-b\r\n--\r\n--b-\r\n--b--",
        told: "<|--b--\r\n--bx\r\n--b\r--b\r\n-b\r\n--\r\n--b-!.",
    },
    BodyRow {
        name: "the_type_in_any_case_and_among_blanks",
        content_type: USUAL,
        body: "--b\r\nA: 1\r\nCONTENT-type: \t text/plain \t\r\nB: 2\r\n\r\n\r\n--b--",
        told: "<=text/plain|!.",
    },
    BodyRow {
        name: "the_first_of_two_types",
        content_type: USUAL,
        body: "--b\r\nContent-Type: a/b\r\nContent-Type: c/d\r\n\r\n\r\n--b--",
        told: "<=a/b|!.",
    },
    BodyRow {
        name: "an_empty_type",
        content_type: USUAL,
        body: "--b\r\nContent-Type:\r\n\r\n\r\n--b--",
        told: "<=|!.",
    },
    BodyRow {
        name: "a_blank_before_the_colon",
        content_type: USUAL,
        body: "--b\r\nContent-Type : a/b\r\n\r\n\r\n--b--",
        told: "<|!.",
    },
    BodyRow {
        name: "a_type_that_goes_on_in_the_next_line",
        content_type: USUAL,
        body: "--b\r\nContent-Type: a/b;\r\n c=d\r\n\r\n\r\n--b--",
        told: "<=a/b;|!.",
    },
    BodyRow {
        name: "a_type_behind_lf_alone",
        content_type: USUAL,
        body: "--b\r\nA: 1\nContent-Type: a/b\r\n\r\n\r\n--b--",
        told: "<|!.",
    },
    BodyRow {
        name: "the_type_of_each_part",
        content_type: USUAL,
        body: "--b\r\nContent-Type: a/b\r\n\r\none\r\n--b\r\nA: 1\r\n\r\ntwo\r\n--b--",
        told: "<=a/b|one><|two!.",
    },
];
