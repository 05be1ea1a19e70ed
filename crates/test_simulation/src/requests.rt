//! Drawn requests of a client.
use crate::draws::Draws;
use crate::shared::START;
use entity_core::ovn::ovn_of;
use entity_core::salt::Salt;
use std::alloc::{AllocError, Global};

// The prefix of each id, which ends with one more digit.
const ID: &str = "00000000-0000-4000-8000-00000000000";

const ZERO: &str = "00000000-0000-4000-8000-000000000000";

/// The path of the interface.
pub(crate) const ROOT: &str = "/dss/v1/";

// The number of bits of a mark.
const MARK_BITS: u64 = 20;

/// The tokens that clients send. The last one is unknown.
const TOKENS: [&str; 5] = ["tok-a", "tok-b", "tok-c", "tok-v", "tok-x"];

/// A drawn request. Its path goes on behind that of the interface.
#[derive(Debug, Drop)]
pub(crate) struct Drawn {
    pub(crate) method: &'static str,
    pub(crate) path: String,
    pub(crate) body: Option<String>,
}

/// The bytes that a client sends, and where each of its requests ends there.
#[derive(Drop)]
pub(crate) struct Script {
    pub(crate) bytes: Vec<u8>,
    pub(crate) ends: Vec<usize>,
    // True if the service closes the connection after the last request.
    pub(crate) is_last: bool,
}

/// A writer of the requests of one client.
#[derive(Drop)]
pub(crate) struct Writer<'a> {
    pub(crate) alloc: Global,
    pub(crate) salt: &'a Salt,
    pub(crate) draws: Draws,
    /// The index of the token that it sends mostly.
    pub(crate) token: usize,
    /// The number of its next change. No two changes of a simulation have one.
    pub(crate) mark: u64,
    pub(crate) script: Script,
}

/// Returns the token with that index.
pub(crate) fn token_at(index: usize) -> &'static str {
    match TOKENS.get(index) {
        Some(token) => *token,
        None => "tok-x",
    }
}

impl Script {
    /// Creates an empty script.
    pub(crate) fn new(alloc: Global) -> Script {
        Script {
            bytes: Vec::new(alloc),
            ends: Vec::new(alloc),
            is_last: false,
        }
    }

    // Appends a request.
    fn put(&mut self, text: &str) -> Result<(), AllocError> {
        self.bytes.extend_from_slice(text.as_bytes())?;
        self.ends.push(self.bytes.len())?;
        Ok(())
    }
}

impl<'a> Writer<'a> {
    /// Returns the script.
    pub(crate) fn into_script(self) -> Script {
        let Writer {
            alloc: _,
            salt: _,
            draws: _,
            token: _,
            mark: _,
            script,
        } = self;
        script
    }

    // Returns the token of the next request.
    fn token(&mut self) -> &'static str {
        if self.draws.chance(85) {
            return token_at(self.token);
        }
        token_at(self.draws.below(5) as usize)
    }

    // Returns a drawn id.
    fn id(&mut self) -> Result<String, AllocError> {
        let digit = self.draws.below(6);
        format!(in self.alloc; "{ID}{digit}")
    }

    // Returns a drawn list of cells. Many of them touch.
    fn cells(&mut self) -> &'static str {
        match self.draws.below(4) {
            0 => "\"000001e19\"",
            1 => "\"000001e18000004\", \"00001\"",
            2 => "\"000003000004\"",
            _ => "\"0000018001\", \"000001\"",
        }
    }

    // Returns a version: that of one of the first serials.
    fn version(&mut self) -> Result<String, AllocError> {
        let serial = self.draws.below(9);
        let ovn = ovn_of(self.alloc, self.salt, serial)?;
        String::from_str(self.alloc, ovn.text())
    }

    // Appends the mark of a change as space, so that no other change has the same body.
    fn put_mark(&mut self, body: &mut String) -> Result<(), AllocError> {
        let mark = self.mark;
        self.mark = mark.wrapping_add(1);
        for place in 0..MARK_BITS {
            let bit = if (mark >> place) % 2 == 0 { " " } else { "\t" };
            body.push_str(bit)?;
        }
        Ok(())
    }

    // Returns a change with this body.
    fn change(
        &mut self,
        method: &'static str,
        path: String,
        body: String,
    ) -> Result<Drawn, AllocError> {
        let mut body = body;
        self.put_mark(&mut body)?;
        Ok(Drawn {
            method,
            path,
            body: Some(body),
        })
    }

    // Appends a request without a body.
    fn put_plain(&mut self, method: &str, path: &str) -> Result<(), AllocError> {
        let token = self.token();
        let text = format!(in self.alloc;
            "{method} {ROOT}{path} HTTP/1.1\r\nAuthorization: Bearer {token}\r\n\r\n"
        )?;
        self.script.put(text.as_str())
    }

    // Appends a request with a body.
    fn put_body(&mut self, method: &str, path: &str, body: &str) -> Result<(), AllocError> {
        let token = self.token();
        let size = body.len();
        let text = format!(in self.alloc;
            "{method} {ROOT}{path} HTTP/1.1\r\nAuthorization: Bearer {token}\r\nContent-Length: {size}\r\n\r\n{body}"
        )?;
        self.script.put(text.as_str())
    }

    // Appends a request.
    fn put_request(&mut self, drawn: Drawn) -> Result<(), AllocError> {
        let Drawn { method, path, body } = drawn;
        match body {
            Some(body) => self.put_body(method, path.as_str(), body.as_str()),
            None => self.put_plain(method, path.as_str()),
        }
    }

    // Returns the path of an intent, with a version in some cases.
    fn path(&mut self, kind: &str, versioned: bool) -> Result<String, AllocError> {
        let id = self.id()?;
        if !versioned {
            return format!(in self.alloc; "{kind}/{id}");
        }
        let version = self.version()?;
        format!(in self.alloc; "{kind}/{id}/{version}")
    }

    // Returns the kind of the path of an entity.
    fn kind(&mut self) -> &'static str {
        if self.draws.chance(70) {
            "operational_intent_references"
        } else {
            "constraint_references"
        }
    }

    // Returns a put of an entity.
    fn entity(&mut self) -> Result<Drawn, AllocError> {
        let kind = self.kind();
        let versioned = self.draws.chance(30);
        let path = self.path(kind, versioned)?;
        let cells = self.cells();
        let begin = START.saturating_sub(self.draws.below(200));
        let end = START.saturating_add(self.draws.below(400));
        let state = if self.draws.chance(70) {
            "Accepted"
        } else {
            "Nonconforming"
        };
        let body = format!(in self.alloc;
            "{{\"extents\": [{{\"cells\": [{cells}], \"altitude_lower\": 0, \"altitude_upper\": 500, \"time_start\": {begin}, \"time_end\": {end}}}], \"uss_base_url\": \"https://u.example\", \"state\": \"{state}\", \"key\": [], \"subscription_id\": \"{ZERO}\"}}"
        )?;
        self.change("PUT", path, body)
    }

    // Returns a put of a subscription.
    fn subscription(&mut self) -> Result<Drawn, AllocError> {
        let path = self.path("subscriptions", false)?;
        let cells = self.cells();
        let end = START.saturating_add(self.draws.below(900));
        let body = format!(in self.alloc;
            "{{\"extents\": {{\"cells\": [{cells}], \"altitude_lower\": 0, \"altitude_upper\": 900, \"time_start\": {START}, \"time_end\": {end}}}, \"uss_base_url\": \"https://s.example\", \"notify_for_operational_intents\": true, \"notify_for_constraints\": false}}"
        )?;
        self.change("PUT", path, body)
    }

    // Appends a query, with a large body in some cases.
    fn put_query(&mut self) -> Result<(), AllocError> {
        let kind = self.kind();
        let path = format!(in self.alloc; "{kind}/query")?;
        let cells = self.cells();
        let mut body = format!(in self.alloc;
            "{{\"area_of_interest\": {{\"cells\": [{cells}]}}}}"
        )?;
        if self.draws.chance(3) {
            for _ in 0..800 {
                body.push_str("                                                                ")?;
                body.push_str("                                                                ")?;
            }
        }
        self.put_body("POST", path.as_str(), body.as_str())
    }

    // Returns the setting of an availability.
    fn availability(&mut self) -> Result<Drawn, AllocError> {
        let body = if self.draws.chance(50) {
            "{\"availability\": \"Down\", \"old_version\": \"\"}"
        } else {
            "{\"availability\": \"Normal\", \"old_version\": \"\"}"
        };
        let path = String::from_str(self.alloc, "uss_availability/uss-a")?;
        let body = String::from_str(self.alloc, body)?;
        self.change("PUT", path, body)
    }

    // Returns a deletion. Its body has no meaning.
    fn deletion(&mut self) -> Result<Drawn, AllocError> {
        let kind = self.kind();
        let path = self.path(kind, true)?;
        let body = String::new(self.alloc);
        self.change("DELETE", path, body)
    }

    /// Returns a drawn change.
    pub(crate) fn draw_change(&mut self) -> Result<Drawn, AllocError> {
        match self.draws.below(12) {
            0 | 1 => self.availability(),
            2 | 3 | 4 => self.subscription(),
            5 | 6 => self.deletion(),
            _ => self.entity(),
        }
    }

    /// Appends a drawn change.
    pub(crate) fn put_change(&mut self) -> Result<(), AllocError> {
        let drawn = self.draw_change()?;
        self.put_request(drawn)
    }

    // Appends a read.
    fn put_read(&mut self) -> Result<(), AllocError> {
        let kind = self.kind();
        let path = self.path(kind, false)?;
        self.put_plain("GET", path.as_str())
    }

    // Appends a request after which the service closes the connection.
    fn put_last(&mut self) -> Result<(), AllocError> {
        self.script.is_last = true;
        match self.draws.below(3) {
            0 => self.script.put("BROKEN\r\n\r\n"),
            1 => self.script.put(
                "GET /dss/v1/uss_availability/uss-a HTTP/1.1\r\nConnection: close\r\nAuthorization: Bearer tok-a\r\n\r\n",
            ),
            _ => self
                .script
                .put("POST /x HTTP/1.1\r\nTransfer-Encoding: chunked\r\n\r\n"),
        }
    }

    // Appends a drawn request.
    fn put_drawn(&mut self) -> Result<(), AllocError> {
        match self.draws.below(20) {
            0 => self.put_plain("GET", "nowhere"),
            1 => self.put_plain("GET", "uss_availability/uss-a"),
            2 | 3 | 4 => self.put_read(),
            5 | 6 | 7 => self.put_query(),
            _ => self.put_change(),
        }
    }

    /// Appends so many reads.
    pub(crate) fn put_reads(&mut self, count: usize) -> Result<(), AllocError> {
        for _ in 0..count {
            self.put_read()?;
        }
        Ok(())
    }

    /// Appends so many drawn requests. The last one may be one after which the service closes.
    pub(crate) fn put_all(&mut self, count: usize) -> Result<(), AllocError> {
        for _ in 0..count {
            self.put_drawn()?;
        }
        if self.draws.chance(15) {
            self.put_last()?;
        }
        Ok(())
    }
}
