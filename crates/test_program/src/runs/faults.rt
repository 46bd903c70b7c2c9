//! A stream that finds no memory, at a desk in memory: the replies before the fault are those of all memory, then the fixed
//! one comes, and from the request on that wasn't answered the rest is served as the next stream. tests/memory runs this
//! again and again, and refuses another request for memory in each run. It shows the same of the built program over a file.
use crate::helpers::devices::Drip;
use crate::helpers::refusals::{begin_refusals, end_refusals};
use std::process::Abort;
use td_base::{Counted, Country};
use td_cli::FixedClock;
use td_desk::PlainDesk;
use td_http::{Service, StreamEnd, serve_stream};

/// A request, and the reply that is due to it.
type Exchange = (&'static [u8], &'static [u8]);

/// A holder's registration, the opening of a guarantee, three declarations, and the way of the first one to its
/// write-off.
const LIFE: [Exchange; 9] = [
    (
        b"PUT /office/holders/000001 HTTP/1.1\r\nContent-Length: 20\r\n\r\n{\"eori\":\"CH1234567\"}",
        b"HTTP/1.1 200 OK\r\nContent-Type: application/json\r\nContent-Length: 67\r\n\r\n{\"eori\":\"CH1234567\",\"guarantees\":0,\"holder\":\"000001\",\"movements\":0}",
    ),
    (
        b"POST /office/holders/000001/guarantees HTTP/1.1\r\nContent-Length: 46\r\n\r\n{\"code\":\"AB12\",\"cover\":50,\"reference\":1000000}",
        b"HTTP/1.1 200 OK\r\nContent-Type: application/json\r\nContent-Length: 27\r\n\r\n{\"grn\":\"25CH0000010000014\"}",
    ),
    (
        b"POST /holders/000001/movements HTTP/1.1\r\nContent-Length: 127\r\n\r\n{\"departure\":\"CH001251\",\"destination\":\"DE005600\",\"lines\":[{\"cents\":100000,\"code\":\"AB12\",\"grn\":\"25CH0000010000014\"}],\"lrn\":\"A1\"}",
        b"HTTP/1.1 200 OK\r\nContent-Type: application/json\r\nContent-Length: 57\r\n\r\n{\"lrn\":\"A1\",\"message\":\"IE028\",\"mrn\":\"25CH000001000001J8\"}",
    ),
    (
        b"POST /holders/000001/movements HTTP/1.1\r\nContent-Length: 127\r\n\r\n{\"departure\":\"CH001251\",\"destination\":\"DE005600\",\"lines\":[{\"cents\":100000,\"code\":\"AB12\",\"grn\":\"25CH0000010000014\"}],\"lrn\":\"A2\"}",
        b"HTTP/1.1 200 OK\r\nContent-Type: application/json\r\nContent-Length: 57\r\n\r\n{\"lrn\":\"A2\",\"message\":\"IE028\",\"mrn\":\"25CH000001000002J7\"}",
    ),
    (
        b"POST /holders/000001/movements HTTP/1.1\r\nContent-Length: 127\r\n\r\n{\"departure\":\"CH001251\",\"destination\":\"DE005600\",\"lines\":[{\"cents\":100000,\"code\":\"AB12\",\"grn\":\"25CH0000010000014\"}],\"lrn\":\"A3\"}",
        b"HTTP/1.1 200 OK\r\nContent-Type: application/json\r\nContent-Length: 57\r\n\r\n{\"lrn\":\"A3\",\"message\":\"IE028\",\"mrn\":\"25CH000001000003J6\"}",
    ),
    (
        b"POST /office/movements/25CH000001000001J8/ie029 HTTP/1.1\r\nContent-Length: 22\r\n\r\n{\"limit\":\"2025-03-08\"}",
        b"HTTP/1.1 200 OK\r\nContent-Type: application/json\r\nContent-Length: 86\r\n\r\n{\"limit\":\"2025-03-08\",\"message\":\"IE029\",\"mrn\":\"25CH000001000001J8\",\"state\":\"released\"}",
    ),
    (
        b"POST /office/movements/25CH000001000001J8/ie007 HTTP/1.1\r\nContent-Length: 21\r\n\r\n{\"office\":\"DE005600\"}",
        b"HTTP/1.1 200 OK\r\nContent-Type: application/json\r\nContent-Length: 59\r\n\r\n{\"late\":false,\"message\":\"IE006\",\"mrn\":\"25CH000001000001J8\"}",
    ),
    (
        b"POST /office/movements/25CH000001000001J8/ie018 HTTP/1.1\r\nContent-Length: 15\r\n\r\n{\"result\":\"A1\"}",
        b"HTTP/1.1 200 OK\r\nContent-Type: application/json\r\nContent-Length: 64\r\n\r\n{\"message\":\"IE018\",\"mrn\":\"25CH000001000001J8\",\"state\":\"cleared\"}",
    ),
    (
        b"POST /office/movements/25CH000001000001J8/ie045 HTTP/1.1\r\nContent-Length: 20\r\n\r\n{\"ground\":\"results\"}",
        b"HTTP/1.1 200 OK\r\nContent-Type: application/json\r\nContent-Length: 68\r\n\r\n{\"message\":\"IE045\",\"mrn\":\"25CH000001000001J8\",\"state\":\"written-off\"}",
    ),
];

const NO_MEMORY: &[u8] =
    b"HTTP/1.1 503 Service Unavailable\r\nContent-Type: application/json\r\nContent-Length: 21\r\nConnection: close\r\n\r\n{\"error\":\"no-memory\"}";

// A writer that has its room.
fn paper(rt: &(impl AllocGlobal + Abort)) -> Counted<Vec<u8>> {
    let room = Vec::with_capacity(rt.alloc(), 4096);
    Counted::new(room.expect(rt, "memory"))
}

// The requests of these exchanges, one behind another.
fn input_of(rt: &(impl AllocGlobal + Abort), exchanges: &[Exchange]) -> Vec<u8> {
    let mut input = Vec::new(rt.alloc());
    for (request, _) in exchanges {
        input.extend_from_slice(request).expect(rt, "memory");
    }
    input
}

// Serves a stream, whose requests come one byte a read.
fn serve(
    rt: &impl AllocGlobal,
    service: &mut Service<PlainDesk>,
    input: &[u8],
    writer: &mut Counted<Vec<u8>>,
) -> StreamEnd {
    let mut reader = Counted::new(Drip { left: input });
    let mut clock = FixedClock { at: 1_740_819_600 };
    serve_stream(rt.alloc(), &mut reader, writer, &mut clock, service)
}

// How many of the replies stand at the front, whole, and what stands behind them.
fn whole_in<'a>(told: &'a [u8], exchanges: &[Exchange]) -> (usize, &'a [u8]) {
    let mut left = told;
    for (whole, (_, reply)) in exchanges.iter().enumerate() {
        match left.strip_prefix(*reply) {
            Some(rest) => left = rest,
            None => return (whole, left),
        }
    }
    (exchanges.len(), left)
}

// The stream was served to its end, or up to the fixed reply. How many requests were answered.
fn assert_told(rt: &impl Abort, end: StreamEnd, told: &[u8]) -> usize {
    let (whole, left) = whole_in(told, &LIFE);
    if end == StreamEnd::Failed {
        assert!(rt; left == NO_MEMORY);
    } else {
        assert!(rt; end == StreamEnd::Closed && left.is_empty() && whole == LIFE.len());
    }
    whole
}

// These are served as they are due.
fn assert_served(
    rt: &(impl AllocGlobal + Abort),
    service: &mut Service<PlainDesk>,
    exchanges: &[Exchange],
) {
    let (input, mut writer) = (input_of(rt, exchanges), paper(rt));
    let end = serve(rt, service, &input, &mut writer);
    assert!(rt; end == StreamEnd::Closed);
    let told = writer.into_inner();
    let (whole, left) = whole_in(&told, exchanges);
    assert!(rt; whole == exchanges.len() && left.is_empty());
}

#[test]
fn the_rest_is_served_after_a_fault(rt: HostRuntime) {
    let country = Country::read(b"CH").expect(&rt, "a country");
    let desk = PlainDesk::new(rt.alloc(), country).expect(&rt, "memory");
    let mut service = Service::new(desk);
    let (input, mut writer) = (input_of(&rt, &LIFE), paper(&rt));
    begin_refusals(&rt);
    let end = serve(&rt, &mut service, &input, &mut writer);
    end_refusals(&rt);
    let answered = assert_told(&rt, end, &writer.into_inner());
    let (_, rest) = LIFE.split_at(answered.min(LIFE.len()));
    assert_served(&rt, &mut service, rest);
}
