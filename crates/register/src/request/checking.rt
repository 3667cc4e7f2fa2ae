// The tests of a request.
ghost use Rattle.std.specs.Prelude.{◌≡◌, Some, None, MatchResult};
ghost use Rattle.admission.specs.Requests.{request_of};
ghost use Rattle.register.specs.Faults.{cause_refusal};
ghost use Rattle.register.specs.Requests.{request_value, country_refusal, instant_refusal, content_refusal};

use super::super::fault::Cause;
use super::Request;
use admission::CheckedRequest;
use calendar::Instant;
use notes::{Circumstances, Country};

fn check_country(country: Option<Country>) -> Result<(), Cause>
    ensures { MatchResult result (λ _. country_refusal country ≡ None) (λ c. country_refusal country ≡ Some (cause_refusal c)) }
{
    if country.is_some_and(|letters| !letters.is_lawful()) {
        return Err(Cause::Country);
    }
    Ok(())
}

fn check_instant(seconds: u32) -> Result<Instant, Cause>
    ensures { MatchResult result (λ i. (instant_refusal seconds ≡ None) × (i.seconds ≡ seconds)) (λ c. instant_refusal seconds ≡ Some (cause_refusal c)) }
{
    Instant::new(seconds).ok_or(Cause::Instant)
}

impl Request {
    // The request as rules look at it.
    fn with_instant(&self, instant: Instant) -> CheckedRequest
        requires { instant.seconds ≡ self.now.instant }
        ensures { request_of result ≡ request_value self.now }
    {
        CheckedRequest {
            identity: self.identity,
            authenticated: self.authenticated,
            operation: self.operation,
            child_type: self.child_type,
            circumstances: Circumstances {
                instant,
                address: self.address,
                country: self.country,
            },
        }
    }

    // Tests the instant, and then the country.
    pub(crate) fn check(&self) -> Result<CheckedRequest, Cause>
        ensures { MatchResult result (λ x. (content_refusal self.now ≡ None) × (request_of x ≡ request_value self.now)) (λ c. content_refusal self.now ≡ Some (cause_refusal c)) }
    {
        let instant = check_instant(self.instant)?;
        check_country(self.country)?;
        Ok(self.with_instant(instant))
    }
}
