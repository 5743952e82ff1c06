//! Content types by RFC 2046, 5.1.1, and RFC 9110, 5.6, right and wrong.

/// Content types, and the boundary that each names.
pub static NAMED: [(&str, &str); 19] = [
    ("multipart/related; boundary=b", "b"),
    ("multipart/mixed; boundary=b", "b"),
    ("Multipart/MIXED;BOUNDARY=\"a b\"", "a b"),
    ("multipart/related;boundary=foo_bar_baz", "foo_bar_baz"),
    (
        "multipart/mixed; boundary=\"gc0pJq0M:08jU534c0p\"",
        "gc0pJq0M:08jU534c0p",
    ),
    (
        "multipart/mixed; boundary=\"simple boundary\"",
        "simple boundary",
    ),
    ("multipart/related \t;\t boundary=b ; charset=utf-8", "b"),
    ("multipart/related; charset=utf-8; boundary=b", "b"),
    ("multipart/related; boundary=one; boundary=two", "one"),
    (
        "multipart/related; x=\"a\\\"; boundary=no\"; boundary=b",
        "b",
    ),
    ("multipart/related; x=\"; boundary=no\"; boundary=b", "b"),
    ("multipart/related; x=\"\"; boundary=b", "b"),
    ("multipart/related; xboundary=no; boundary=b", "b"),
    ("multipart/related;;; type=\"text/plain\";boundary=b;", "b"),
    ("multipart/related; boundary=b; ", "b"),
    ("multipart/related; boundary=b; x=\"é\"", "b"),
    ("multipart/related; boundary=-", "-"),
    (
        "multipart/related; boundary=\"'()+_,-./:=?\"",
        "'()+_,-./:=?",
    ),
    (
        "multipart/related; boundary=1234567890123456789012345678901234567890123456789012345678901234567890",
        "1234567890123456789012345678901234567890123456789012345678901234567890",
    ),
];

/// Content types that name no boundary.
pub static UNNAMED: [&str; 29] = [
    "",
    "multipart/related",
    "multipart/related;",
    "multipart/form-data; boundary=b",
    "multipart/relatedx; boundary=b",
    "multipart/relate; boundary=b",
    " multipart/related; boundary=b",
    "multipart/related boundary=b",
    "multipart/related, boundary=b",
    "multipart/related; boundary",
    "multipart/related; boundary=",
    "multipart/related; boundary =b",
    "multipart/related; boundary= b",
    "multipart/related; boundary=b ",
    "multipart/related; boundary=a b",
    "multipart/related; boundary=\"\"",
    "multipart/related; boundary=\"b",
    "multipart/related; boundary=\"b\"c",
    "multipart/related; boundary=\"b \"",
    "multipart/related; boundary=\"a\\b\"",
    "multipart/related; boundary=\"a\\\"b\"",
    "multipart/related; boundary=a!b; boundary=c",
    "multipart/related; boundary=b; =c",
    "multipart/related; boundary=b; x",
    "multipart/related; boundary=b; x=\"y",
    "multipart/related; boundary=b; x=\"\u{7f}\"",
    "multipart/mixed; boundary=gc0pJq0M:08jU534c0p",
    "multipart/related; boundary=é",
    "multipart/related; boundary=12345678901234567890123456789012345678901234567890123456789012345678901",
];
