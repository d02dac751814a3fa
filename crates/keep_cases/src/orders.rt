// Orders of services: the setting `digest` is a block, each `service` a UUID. The places of the services in the order in which they are asked.
use keep_casebook::{Answer, Case};
use keep_order::order;
use keep_spec::{Digest, Uuid};
use std::alloc::Global;

pub fn answer(alloc: Global, case: &Case, answer: &mut Answer) {
    let Some(digest) = Digest::read(case.value("digest").unwrap_or("").as_bytes()) else {
        return answer.value(b"no digest");
    };
    let mut services: Vec<Uuid> = Vec::new(alloc);
    for setting in case.settings() {
        if setting.key == "service" {
            let Ok(uuid) = Uuid::read(setting.value.as_bytes()) else {
                return answer.value(b"no UUID");
            };
            if services.push(uuid).is_err() {
                return answer.cut();
            }
        }
    }
    match order(alloc, &digest, &services) {
        Ok(places) => answer_places(&places, answer),
        Err(_) => answer.cut(),
    }
}

fn answer_places(places: &[u32], answer: &mut Answer) {
    for (n, place) in places.iter().enumerate() {
        if n > 0 {
            answer.text(b" ");
        }
        answer.number(*place as u64);
    }
    answer.end();
}
