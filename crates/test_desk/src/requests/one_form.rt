//! The requests of commands in their one form, which the page of requests shows.
use super::asked::request;
use std::process::Abort;
use td_http::read_command;
use td_journal_rows::{
    command_is_typed, days_read_back, request_of, request_reads_back, requests_read_back,
};

/// Requests in the one form.
const WRITTEN: [(&str, &str, &str); 19] = [
    ("PUT", "/office/holders/000001", "{\"eori\":\"CH1234567\"}"),
    (
        "POST",
        "/office/holders/000001/guarantees",
        "{\"reference\":1000000,\"cover\":50,\"code\":\"AB12\"}",
    ),
    (
        "POST",
        "/office/guarantees/25CH0000010000014/amend",
        "{\"reference\":2000001,\"cover\":0}",
    ),
    ("POST", "/office/guarantees/25CH0000010000014/revoke", ""),
    (
        "POST",
        "/holders/000001/movements",
        "{\"lrn\":\"A1\",\"departure\":\"CH001251\",\"destination\":\"DE005600\",\"lines\":[{\"cents\":500000,\"code\":\"AB12\",\"grn\":\"25CH0000010000014\"}]}",
    ),
    (
        "POST",
        "/holders/000001/movements",
        "{\"lrn\":\"a-/.2\",\"departure\":\"CH001251\",\"destination\":\"DE005600\",\"lines\":[{\"cents\":1,\"code\":\"AB12\",\"grn\":\"25CH0000010000014\"},{\"cents\":1250,\"code\":\"ZZ99\",\"grn\":\"25CH0000010000023\"}]}",
    ),
    (
        "POST",
        "/holders/000001/movements/25CH000001000001J8/ie014",
        "",
    ),
    (
        "POST",
        "/holders/000001/guarantees/25CH0000010000014/codes/add",
        "{\"code\":\"ZZ99\"}",
    ),
    (
        "POST",
        "/holders/000001/guarantees/25CH0000010000014/codes/remove",
        "{\"code\":\"ZZ99\"}",
    ),
    (
        "POST",
        "/office/movements/25CH000001000001J8/ie029",
        "{\"limit\":\"2025-03-08\"}",
    ),
    (
        "POST",
        "/office/movements/25CH000001000001J8/ie007",
        "{\"office\":\"DE005600\"}",
    ),
    (
        "POST",
        "/office/movements/25CH000001000001J8/ie018",
        "{\"result\":\"A1\"}",
    ),
    (
        "POST",
        "/office/movements/25CH000001000001J8/ie045",
        "{\"ground\":\"results\"}",
    ),
    ("POST", "/office/movements/25CH000001000001J8/ie140", ""),
    ("GET", "/holders/000001", ""),
    ("GET", "/holders/000001/movements", ""),
    ("GET", "/holders/000001/movements/25CH000001000001J8", ""),
    ("GET", "/holders/000001/guarantees", ""),
    ("GET", "/holders/000001/guarantees/25CH0000010000014", ""),
];

/// Requests in another form, each with the body that it has in the one form.
const OTHERWISE: [(&str, &str, &str); 3] = [
    (
        "/office/holders/000001/guarantees",
        " {\"code\": \"AB12\", \"cover\": 50, \"reference\": 1000000}\n",
        "{\"reference\":1000000,\"cover\":50,\"code\":\"AB12\"}",
    ),
    (
        "/office/movements/25CH000001000001J8/ie029",
        "{\"limit\":\"2025-03-09\",\"message\":\"IE029\",\"limit\":\"2025\\u002d03-08\"}",
        "{\"limit\":\"2025-03-08\"}",
    ),
    ("/office/movements/25CH000001000001J8/ie140", "not JSON", ""),
];

/// Whether a request's command has this method, path and body in the one form.
fn is_written_as(
    rt: &(impl AllocGlobal + Abort),
    method: &str,
    path: &str,
    sent: &str,
    body: &str,
) -> bool {
    let request = request(rt, method, path.as_bytes(), sent.as_bytes());
    let Ok(command) = read_command(rt.alloc(), &request) else {
        return false;
    };
    let text = request_of(rt.alloc(), &command).expect(rt, "memory");
    text.method == method && text.path.as_str() == path && text.body.as_str() == body
}

#[test]
fn requests_in_the_one_form_stay_as_they_are(rt: HostRuntime) {
    for (method, path, body) in &WRITTEN {
        assert!(rt; is_written_as(&rt, method, path, body, body), "{body}");
    }
}

#[test]
fn requests_are_brought_into_the_one_form(rt: HostRuntime) {
    for (path, sent, body) in &OTHERWISE {
        assert!(rt; is_written_as(&rt, "POST", path, sent, body), "{body}");
    }
}

#[test]
fn laws_of_requests_are_called(rt: HostRuntime) {
    days_read_back();
    requests_read_back();
    let request = request(&rt, "GET", b"/holders/000001", b"");
    let command = read_command(rt.alloc(), &request)
        .ok()
        .expect(&rt, "a command");
    command_is_typed(&command);
    request_reads_back(&command);
}
