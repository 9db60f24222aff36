//! Which request gets which answer.

use super::metrics_of;
use iso_fakes::check;
use iso_metrics::Metrics;
use std::alloc::Global;
use std::test::Fail;

/// A request and its answer while the journal can be written.
struct Visit {
    name: &'static str,
    request: &'static [u8],
    answer: &'static [u8],
}

/// The answer to a request for the head of a page alone.
const HEAD: &[u8] =
    b"HTTP/1.1 200 OK\r\ncontent-type: application/json\r\ncache-control: no-store\r\nconnection: close\r\ncontent-length: 41\r\n\r\n";

const VISITS: &[Visit] = &[
    Visit {
        name: "health",
        request: b"GET /health HTTP/1.1\r\nHost: host\r\n\r\n",
        answer: b"HTTP/1.1 200 OK\r\ncontent-type: application/json\r\ncache-control: no-store\r\nconnection: close\r\ncontent-length: 41\r\n\r\n{\"status\":\"ok\",\"entries\":7,\"limit\":1000}\n",
    },
    Visit {
        name: "health with a query, and a word of HTTP 1.0",
        request: b"GET /health?full=1 HTTP/1.0\r\n\r\n",
        answer: b"HTTP/1.0 200 OK\r\ncontent-type: application/json\r\ncache-control: no-store\r\nconnection: close\r\ncontent-length: 41\r\n\r\n{\"status\":\"ok\",\"entries\":7,\"limit\":1000}\n",
    },
    Visit {
        name: "only the head",
        request: b"HEAD /health HTTP/1.1\r\nHost: host\r\n\r\n",
        answer: HEAD,
    },
    Visit {
        name: "another page",
        request: b"GET / HTTP/1.1\r\nHost: host\r\n\r\n",
        answer: b"HTTP/1.1 404 Not Found\r\ncontent-type: text/plain; charset=utf-8\r\ncache-control: no-store\r\nconnection: close\r\ncontent-length: 14\r\n\r\n404 Not Found\n",
    },
    Visit {
        name: "another method",
        request: b"POST /metrics HTTP/1.1\r\nHost: host\r\n\r\n",
        answer: b"HTTP/1.1 405 Method Not Allowed\r\ncontent-type: text/plain; charset=utf-8\r\ncache-control: no-store\r\nconnection: close\r\nallow: GET, HEAD\r\ncontent-length: 23\r\n\r\n405 Method Not Allowed\n",
    },
    Visit {
        name: "no request",
        request: b"\x00\x1a0200",
        answer: b"HTTP/1.1 400 Bad Request\r\ncontent-type: text/plain; charset=utf-8\r\ncache-control: no-store\r\nconnection: close\r\ncontent-length: 16\r\n\r\n400 Bad Request\n",
    },
    Visit {
        name: "no host",
        request: b"GET /health HTTP/1.1\r\n\r\n",
        answer: b"HTTP/1.1 400 Bad Request\r\ncontent-type: text/plain; charset=utf-8\r\ncache-control: no-store\r\nconnection: close\r\ncontent-length: 16\r\n\r\n400 Bad Request\n",
    },
];

/// What a request is answered, once it is whole.
fn answer_of(alloc: Global, metrics: &Metrics, request: &[u8]) -> Option<Vec<u8>> {
    let mut answer = Vec::new(alloc);
    if metrics.answer_request(request, &mut answer) {
        Some(answer)
    } else {
        None
    }
}

#[test]
fn requests_are_answered(rt: HostRuntime) -> Result<(), Fail> {
    let metrics = metrics_of(rt.alloc(), &["pos"])?;
    for visit in VISITS {
        let answer = answer_of(rt.alloc(), &metrics, visit.request);
        check(
            answer.is_some_and(|answer| answer.as_slice() == visit.answer),
            visit.name,
        )?;
    }
    let part = b"GET /health HTTP/1.1\r\nHost: host\r\n";
    check(answer_of(rt.alloc(), &metrics, part).is_none(), "a part")
}
