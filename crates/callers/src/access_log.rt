//! An access log: one line for each request to a service.
ghost use Rattle.std.specs.Prelude.{◌≡◌, string_bytes, IfOk};
ghost use Rattle.callers.specs.AccessLog.{access_line, IsWritten};

use bytes::Bytes;
use http::Request;
use http_server::{Response, Service};
use std::alloc::{AllocError, Global};
use std::io::Write;
use std::marker::Model;
use tracing_appender::worker::run_line;

/// Passes each request to a service, and then writes its line to a log, as `GET /path?query 200`. The log changes no
/// response. A line that the log did not take whole is counted.
#[derive(Drop)]
pub struct AccessLog<S, W> {
    alloc: Global,
    service: S,
    log: W,
    lost: u64,
}

impl<S, W> Model for AccessLog<S, W> {
    ghost use Rattle.callers.specs.AccessLog.{Logged};

    ghost Value = { Logged S W };

    ghost view = { λ l. record { service = l.service; log = l.log; lost = l.lost } };
}

impl<S, W> AccessLog<S, W> {
    ghost use Rattle.callers.specs.AccessLog.{new_logged};

    /// Returns the service with its log.
    pub fn new(alloc: Global, service: S, log: W) -> AccessLog<S, W>
        ensures { result ≡ new_logged service log }
    {
        AccessLog {
            alloc,
            service,
            log,
            lost: 0,
        }
    }

    /// Returns the number of lines that the log did not take whole.
    pub fn lost(&self) -> u64
        ensures { result ≡ self.now.lost }
    {
        self.lost
    }
}

impl<S: Service, W: Write> Service for AccessLog<S, W> {
    ghost use Rattle.callers.specs.AccessLog.{WritesLogLine};

    // The service's own response, and the line of the request.
    ghost answers = { λ old request response new. S.answers old.service request response new.service
        × WritesLogLine W.contents (access_line request response) old new };

    fn call(
        &mut self,
        request: &Request<Bytes>,
        response: &mut Response,
    ) -> Result<(), AllocError> {
        self.service.call(request, response)?;
        if !write_line(self.alloc, &mut self.log, request, response) {
            self.lost = self.lost.saturating_add(1);
        }
        Ok(())
    }
}

// Writes the line of a request, and returns whether all of it was written.
fn write_line<W: Write>(
    alloc: Global,
    log: &mut W,
    request: &Request<Bytes>,
    response: &Response,
) -> bool
    ensures { IsWritten W.contents (access_line request.now response.now) log.old log.new result }
{
    match line(alloc, request, response) {
        Ok(line) => run_line(log, line.as_bytes()).is_ok(),
        Err(_) => false,
    }
}

fn line(alloc: Global, request: &Request<Bytes>, response: &Response) -> Result<String, AllocError>
    ensures { IfOk result (λ line. string_bytes line ≡ access_line request.now response.now) }
{
    let status = response.status.as_u16();
    format!(in alloc; "{} {} {status}\n", request.method(), request.uri())
}
