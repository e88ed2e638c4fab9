use crate::callers::Callers;
use crate::page::Page;
use crate::serving::Serving;
use std::alloc::AllocError;

const TEXT: &str = "text/plain; charset=utf-8";

/// The text format of Prometheus.
const METRICS: &str = "text/plain; version=0.0.4; charset=utf-8";

impl<R, W, G: Callers> Serving<'_, R, W, G> {
    /// Answers a request for a page, behind which its connection ends.
    pub(crate) fn answer_page(&mut self, at: usize, page: Page) {
        match self.response(page) {
            Ok(text) => self.control.answer_last(at, text.as_str()),
            Err(_) => self
                .control
                .answer_last(at, "HTTP/1.1 503 Service Unavailable\r\n\r\n"),
        }
    }

    fn response(&self, page: Page) -> Result<String, AllocError> {
        match page {
            Page::Metrics => {
                let text = self.metrics()?;
                self.response_of("200 OK", METRICS, text.as_str())
            }
            Page::Health if self.is_serving() => self.response_of("200 OK", TEXT, "serves\n"),
            Page::Health => self.response_of("503 Service Unavailable", TEXT, "does not serve\n"),
            Page::Missing => self.response_of("404 Not Found", TEXT, "/metrics or /health\n"),
            Page::NoPage => self.response_of("405 Method Not Allowed", TEXT, "only GET\n"),
            Page::Bad => self.response_of("400 Bad Request", TEXT, "no request\n"),
        }
    }

    fn response_of(&self, status: &str, kind: &str, body: &str) -> Result<String, AllocError> {
        let length = body.len();
        format!(in self.alloc;
            "HTTP/1.1 {status}\r\nContent-Type: {kind}\r\nContent-Length: {length}\r\nConnection: close\r\n\r\n{body}"
        )
    }
}
